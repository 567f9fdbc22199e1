// The innermost bracket that is open.
ghost use Rattle.std.specs.Prelude.{◌≡◌, ◌≤◌, ◌<◌, length};
ghost use Rattle.rows.specs.Rows.{room_of, entry_at};
ghost use Rattle.opened.specs.Brackets.{side_at, innermost, closes_other, open_behind, other_before};

use crate::begun::Begun;
use grammar::kinds::{Side, kind_of, side_of};
use rows::{kinds, row};

// The side of entry i.
pub fn side_at(tape: &[u32], i: usize) -> Side
    requires { i < room_of (length tape.now) }
    ensures { result ≡ side_at tape.now i }
{
    side_of(kind_of(row::entry(tape, i).kind))
}

// The number of the innermost open bracket's entry behind n entries: from there back, what is closed behind an opening bracket is passed over.
fn innermost_open(tape: &[u32], n: usize) -> Option<usize>
    requires { n ≤ room_of (length tape.now) }
    ensures { result ≡ innermost tape.now n }
{
    let mut closed: usize = 0;
    for i in (0..n).rev() {
        let side = side_at(tape, i);
        match side {
            Side::Opens => {
                if closed == 0 {
                    return Some(i);
                }
                closed -= 1;
            }
            Side::Closes => {
                closed += 1;
            }
            Side::Neither => {}
        }
    }
    None
}

// A closing bracket, but not of the kind that the opening one needs.
fn closes_other(opening: u32, kind: u32) -> bool
    ensures { result ≡ closes_other opening kind }
{
    if kind == kinds::CLOSE_PAREN {
        return opening != kinds::OPEN_PAREN;
    }
    if kind == kinds::CLOSE_BRACKET {
        return opening != kinds::OPEN_BRACKET;
    }
    if kind == kinds::CLOSE_BRACE {
        return opening != kinds::OPEN_BRACE;
    }
    false
}

fn bracket_at(tape: &[u32], i: usize) -> Begun
    requires { i < room_of (length tape.now) }
    ensures { result ≡ Begun.Bracket (entry_at tape.now i).start }
{
    let e = row::entry(tape, i);
    Begun::Bracket(e.start as usize)
}

// The innermost bracket that is open behind n entries.
pub fn open_behind(tape: &[u32], n: usize) -> Begun
    requires { n ≤ room_of (length tape.now) }
    ensures { result ≡ open_behind tape.now n }
{
    match innermost_open(tape, n) {
        None => Begun::Nothing,
        Some(i) => bracket_at(tape, i),
    }
}

// The same before entry n, where that closes a bracket of another kind.
pub fn other_before(tape: &[u32], n: usize) -> Begun
    requires { n < room_of (length tape.now) }
    ensures { result ≡ other_before tape.now n }
{
    match innermost_open(tape, n) {
        None => Begun::Nothing,
        Some(i) => {
            if closes_other(row::entry(tape, i).kind, row::entry(tape, n).kind) {
                return bracket_at(tape, i);
            }
            Begun::Nothing
        }
    }
}
