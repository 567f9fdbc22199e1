// One pass over a text: it counts or refuses, and where it is on it lays the entries on the tape.
ghost use Rattle.std.specs.Prelude.{true, cond, ◌≡◌, ◌+◌, ◌-◌, ◌≤◌, ◌<◌, ◌^◌, length, drop};
ghost use Rattle.reading.specs.Readings.{read_from};
ghost use Rattle.rows.specs.Rows.{room_of, written};
ghost use Rattle.text.specs.Classes.{blank1};
ghost use Rattle.text.specs.Runs.{run};
ghost use Rattle.tokens.specs.Ron.{ron_token};
ghost use Rattle.read.specs.inner.Pass.{up_to, passed_tape, scanned_from};

use crate::scanned::{Scanned, told};
use comments::is_blank;
use plain::blanks::count_blanks;
use plain::forms::plain;
use rows::{Entry, row};
use text::refusal::placed_behind;
use tokens::following::{Following, next_token};
use tokens::lexeme::Lexeme;

// A lexeme between two places, the former entry ending at a third.
fn entry_of(l: Lexeme, at: usize, start: usize, end: usize) -> Entry
    requires { (at ≤ start) × (start < 2 ^ 32) × (end < 2 ^ 32) × (l.detail < 2 ^ 32) }
    ensures { result ≡ record { kind = l.kind; start = start; end = end; detail = l.detail; gap = start - at } }
{
    let gap = start - at;
    Entry {
        kind: l.kind,
        start: start as u32,
        end: end as u32,
        detail: l.detail as u32,
        gap: gap as u32,
    }
}

// An entry into row i where the pass is on.
fn put(tape: &mut [u32], i: usize, e: Entry, on: bool)
    requires { on ≡ true → i < room_of (length tape.old) }
    ensures { tape.new ≡ cond on (written tape.old i e) tape.old }
{
    if !on {
        return;
    }
    row::write(tape, i, e);
}

// Where the loop goes on: behind the blanks at a place, of which there are often none.
fn behind_blanks(text: &[u8], at: usize) -> usize
    requires { at ≤ length text.now }
    ensures { result ≡ at + run blank1 (drop at text.now) }
{
    if text.len() <= at {
        return at;
    }
    if !is_blank(text[at]) {
        return at;
    }
    let next = at + 1;
    next + count_blanks(&text[next..])
}

// The first n entries of a text from a place on; blanks and plain tokens are taken here, and the general reader is asked for the rest. `plain` has no other caller: with
// two it would be no part of the loop.
pub fn pass(text: &[u8], from: usize, tape: &mut [u32], n: usize, on: bool) -> Scanned
    requires { (length text.now ≤ 65536) × (from ≤ length text.now) × (on ≡ true → n ≤ room_of (length tape.old)) }
    ensures { (result ≡ scanned_from from (up_to n (read_from ron_token text.now from)))
        × (tape.new ≡ passed_tape on (up_to n (read_from ron_token text.now from)) tape.old) }
{
    let mut at = from;
    let mut before = from;
    for i in 0..n {
        let front = behind_blanks(text, at);
        if text.len() <= front {
            return told(i, at, before, Ok(()));
        }
        let p = plain(&text[front..]);
        if 0 < p.len {
            let end = front + p.len;
            put(tape, i, entry_of(p, at, front, end), on);
            before = at;
            at = end;
            continue;
        }
        let found = next_token(&text[front..]);
        match found {
            Following::Token(g, l) => {
                let start = front + g;
                let end = start + l.len;
                put(tape, i, entry_of(l, at, start, end), on);
                before = at;
                at = end;
            }
            Following::End => return told(i, at, before, Ok(())),
            Following::Refused(refusal) => {
                let ending = Err(placed_behind(refusal, front));
                return told(i, at, before, ending);
            }
        }
    }
    told(n, at, before, Ok(()))
}
