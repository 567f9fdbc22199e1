// The field of the same brackets that has the name of an entry already.
ghost use Rattle.std.specs.Prelude.{◌≡◌, ◌+◌, ◌<◌, length};
ghost use Rattle.rows.specs.Rows.{room_of};
ghost use Rattle.fields.specs.Fields.{same};
ghost use Rattle.fields.specs.Names.{name_of, name_at};
ghost use Rattle.opened.specs.Former.{is_field, is_former, former_of, field_at, field_before};

use crate::begun::Begun;
use crate::brackets::side_at;
use fields::comparing::is_same;
use fields::names::name_from;
use grammar::kinds::Side;
use lines::part;
use rows::{Entry, kinds, row};

// The name of an entry, as far as the text has it.
fn name_of(text: &[u8], e: Entry) -> &[u8]
    ensures { result.now ≡ name_of text.now e }
{
    part(text, name_from(e), e.end as usize)
}

// Whether two entries have one name.
fn are_alike(text: &[u8], tape: &[u32], i: usize, n: usize) -> bool
    requires { (i < room_of (length tape.now)) × (n < room_of (length tape.now)) }
    ensures { result ≡ same (name_at text.now tape.now i) (name_at text.now tape.now n) }
{
    is_same(
        name_of(text, row::entry(tape, i)),
        name_of(text, row::entry(tape, n)),
    )
}

// Whether entry i names a field: a name with a colon behind it.
fn is_field(tape: &[u32], i: usize) -> bool
    requires { i + 1 < room_of (length tape.now) }
    ensures { result ≡ is_field tape.now i }
{
    let kind = row::entry(tape, i).kind;
    if kind < kinds::NAME {
        return false;
    }
    if kinds::RAW_NAME < kind {
        return false;
    }
    row::entry(tape, i + 1).kind == kinds::COLON
}

// Whether entry i is the field, so many brackets being closed between it and entry n.
fn is_former(text: &[u8], tape: &[u32], n: usize, i: usize, closed: usize) -> bool
    requires { (i < n) × (n < room_of (length tape.now)) }
    ensures { result ≡ is_former text.now tape.now n i closed }
{
    if closed != 0 {
        return false;
    }
    if is_field(tape, i) {
        return are_alike(text, tape, i, n);
    }
    false
}

// The number of the entry that names the field before entry n: from there back, what is closed is passed over, up to the bracket that is open.
fn former_of(text: &[u8], tape: &[u32], n: usize) -> Option<usize>
    requires { n < room_of (length tape.now) }
    ensures { result ≡ former_of text.now tape.now n }
{
    let mut closed: usize = 0;
    for i in (0..n).rev() {
        let side = side_at(tape, i);
        match side {
            Side::Opens => {
                if closed == 0 {
                    return None;
                }
                closed -= 1;
            }
            Side::Closes => {
                closed += 1;
            }
            Side::Neither => {
                if is_former(text, tape, n, i, closed) {
                    return Some(i);
                }
            }
        }
    }
    None
}

fn field_at(tape: &[u32], i: usize) -> Begun
    requires { i < room_of (length tape.now) }
    ensures { result ≡ field_at tape.now i }
{
    let e = row::entry(tape, i);
    Begun::Field(e.start as usize, name_from(e), e.end as usize)
}

// Where the field stands that has the name of entry n already.
pub fn field_before(text: &[u8], tape: &[u32], n: usize) -> Begun
    requires { n < room_of (length tape.now) }
    ensures { result ≡ field_before text.now tape.now n }
{
    match former_of(text, tape, n) {
        None => Begun::Nothing,
        Some(i) => field_at(tape, i),
    }
}
