// The name of an entry: its bytes, those behind `r#` of a raw one.
ghost use Rattle.std.specs.Prelude.{◌≡◌, ◌+◌, ◌-◌, ◌*◌, ◌≤◌, ◌<◌, eqb, length, drop, true, ◌||◌, MatchOption};
ghost use Rattle.rows.specs.Rows.{width, room_of, entry_at, entries_of};
ghost use Rattle.rows.specs.Order.{in_order};
ghost use Rattle.fields.specs.Names.{name_from, name_at, HasName, raw_fits, raws_fit};

use rows::{Entry, kinds, row};
use text::bytes::peek;

// Where it begins.
pub fn name_from(e: Entry) -> usize
    ensures { result ≡ name_from e }
{
    if e.kind == kinds::RAW_NAME {
        return e.start as usize + 2;
    }
    e.start as usize
}

// The name of an entry that has one.
pub fn name_of<'a>(text: &'a [u8], tape: &[u32], x: u16) -> &'a [u8]
    requires { HasName text.now tape.now x }
    ensures { result.now ≡ name_at text.now tape.now x }
{
    let e = row::entry(tape, x as usize);
    &text[name_from(e)..e.end as usize]
}

// The same of any number: none, unless it is an entry's whose name lies in the text.
pub fn name_if_any<'a>(text: &'a [u8], tape: &[u32], x: u16) -> Option<&'a [u8]>
    ensures { MatchOption result (HasName text.now tape.now x → ⊥) (λ name. name.now ≡ name_at text.now tape.now x) }
{
    let i = x as usize;
    if row::room(tape) <= i {
        return None;
    }
    let e = row::entry(tape, i);
    text.get(name_from(e)..e.end as usize)
}

// Whether a raw name is `r#` with more behind it; any other entry fits.
fn raw_fits(text: &[u8], e: Entry) -> bool
    requires { (e.start < e.end) × (e.end ≤ length text.now) }
    ensures { result ≡ raw_fits text.now e }
{
    if e.kind != kinds::RAW_NAME {
        return true;
    }
    let at = e.start as usize;
    if e.end as usize - at <= 2 {
        return false;
    }
    if peek(text, at) != b'r' {
        return false;
    }
    peek(text, at + 1) == b'#'
}

// Whether the entry in row i is a raw name.
fn is_raw(tape: &[u32], i: usize) -> bool
    requires { i < room_of (length tape.now) }
    ensures { result ≡ eqb (entry_at tape.now i).kind 10 }
{
    row::entry(tape, i).kind == kinds::RAW_NAME
}

// Whether one of the four from row i on is: asked together, since a loop's turn for each row costs more.
fn some_raw(tape: &[u32], i: usize) -> bool
    requires { i + 4 ≤ room_of (length tape.now) }
    ensures { result ≡ (eqb (entry_at tape.now i).kind 10 || (eqb (entry_at tape.now (i + 1)).kind 10
        || (eqb (entry_at tape.now (i + 2)).kind 10 || eqb (entry_at tape.now (i + 3)).kind 10))) }
{
    if is_raw(tape, i) {
        return true;
    }
    if is_raw(tape, i + 1) {
        return true;
    }
    if is_raw(tape, i + 2) {
        return true;
    }
    is_raw(tape, i + 3)
}

// Whether the entries from row `from` on fit, each looked at.
fn rest_fit(text: &[u8], tape: &[u32], count: usize, from: usize) -> bool
    requires { (count ≤ room_of (length tape.now)) × (from ≤ count) × (in_order (entries_of count tape.now) (length text.now) ≡ true) }
    ensures { result ≡ raws_fit text.now (entries_of (count - from) (drop (width * from) tape.now)) }
{
    for i in from..count {
        if !raw_fits(text, row::entry(tape, i)) {
            return false;
        }
    }
    true
}

// Whether all of the first `count` entries fit: raw names are rare, so eight rows at a time are passed over while none is met.
pub fn raws_fit(text: &[u8], tape: &[u32], count: usize) -> bool
    requires { (count ≤ room_of (length tape.now)) × (in_order (entries_of count tape.now) (length text.now) ≡ true) }
    ensures { result ≡ raws_fit text.now (entries_of count tape.now) }
{
    let mut i = 0;
    while 8 <= count - i {
        if some_raw(tape, i) {
            return rest_fit(text, tape, count, i);
        }
        if some_raw(tape, i + 4) {
            return rest_fit(text, tape, count, i);
        }
        i += 8;
    }
    rest_fit(text, tape, count, i)
}

#[cfg(test)]
mod tests {
    use super::*;

    // `(r#rise: 2, rise: 3)`: the raw name, the name, and an entry that ends past the text; the tape has no fourth.
    #[test]
    fn a_name_of_any_number(rt: HostRuntime) {
        let text = b"(r#rise: 2, rise: 3)";
        let tape = [10, 1, 7, 0, 0, 9, 12, 16, 0, 5, 9, 18, 21, 0, 2];
        assert_eq!(rt; name_if_any(text, &tape, 0), Some(&b"rise"[..]));
        assert_eq!(rt; name_if_any(text, &tape, 1), Some(&b"rise"[..]));
        assert_eq!(rt; name_if_any(text, &tape, 2), None);
        assert_eq!(rt; name_if_any(text, &tape, 3), None);
        assert_eq!(rt; name_if_any(text, &tape, 65535), None);
    }
}
