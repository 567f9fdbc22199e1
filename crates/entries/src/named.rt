// The entry that a caller names by its number, on any tape with any count.
ghost use Rattle.std.specs.Prelude.{◌≡◌, ◌<◌, length};
ghost use Rattle.rows.specs.Rows.{room_of, entry_at};
ghost use Rattle.entries.specs.Named.{by_kind, inside_of, named_of, literal_of};

use rows::{kinds, row};
use strings::Literal;
use text::Refusal;
use text::judge::place_fits;

// Kind 14 is a string, 15 a byte string: whether it is the latter, and its place.
fn by_kind(kind: u32, place: usize) -> Result<(bool, usize), Refusal>
    ensures { result ≡ by_kind kind place }
{
    if kind == kinds::STRING {
        return Ok((false, place));
    }
    if kind == kinds::BYTE_STRING {
        return Ok((true, place));
    }
    Err(Refusal::other_kind())
}

fn start_of(start: u32) -> usize
    ensures { result ≡ start }
{
    start as usize
}

// An entry inside the slice: its start is judged before the count.
fn named_inside(
    text: &[u8],
    tape: &[u32],
    count: usize,
    entry: usize,
) -> Result<(bool, usize), Refusal>
    requires { entry < room_of (length tape.now) }
    ensures { result ≡ inside_of text.now (room_of (length tape.now)) count (entry_at tape.now entry) }
{
    let e = row::entry(tape, entry);
    let place = start_of(e.start);
    if !place_fits(text, place) {
        return Err(Refusal::unfit());
    }
    if row::room(tape) < count {
        return Err(Refusal::not_in_order());
    }
    by_kind(e.kind, place)
}

// The string that the entry names: whether it is a byte string, and its place, or the refusal. One outside the slice has no start to judge.
pub fn find_named(
    text: &[u8],
    tape: &[u32],
    count: usize,
    entry: usize,
) -> Result<(bool, usize), Refusal>
    ensures { result ≡ named_of text.now tape.now count entry }
{
    if count <= entry {
        return Err(Refusal::unfit());
    }
    if entry < row::room(tape) {
        return named_inside(text, tape, count, entry);
    }
    Err(Refusal::not_in_order())
}

// The string or byte string at the front of s.
pub fn read_named(bytes: bool, s: &[u8]) -> Result<Literal, Refusal>
    ensures { result ≡ literal_of bytes s.now }
{
    if bytes {
        return strings::byte_string_no_base64(s);
    }
    strings::string(s)
}
