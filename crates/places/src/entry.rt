// The byte at which a refusal of the walk stands.
ghost use Rattle.std.specs.Prelude.{◌≡◌, ◌≤◌, length};
ghost use Rattle.rows.specs.Rows.{room_of};
ghost use Rattle.places.specs.Entries.{entry_place, names_entry, walk_place};

use rows::row;
use text::Refusal;

// Where entry n of so many starts, or the last one ends.
fn entry_place(tape: &[u32], count: usize, n: usize) -> usize
    requires { count ≤ room_of (length tape.now) }
    ensures { result ≡ entry_place tape.now count n }
{
    if n < count {
        let e = row::entry(tape, n);
        return e.start as usize;
    }
    if 0 < count {
        let e = row::entry(tape, count - 1);
        return e.end as usize;
    }
    0
}

// 24 to 26 and 31 name an entry; the walk's other refusals have no place.
fn names_entry(number: u8) -> bool
    ensures { result ≡ names_entry number }
{
    if number == Refusal::REPEATED_FIELD {
        return true;
    }
    if number < Refusal::DEPTH_LIMIT_PASSED {
        return false;
    }
    if Refusal::TAPE_ENDS_EARLY < number {
        return false;
    }
    true
}

// The byte of a refusal.
pub fn walk_place(tape: &[u32], count: usize, r: Refusal) -> usize
    requires { count ≤ room_of (length tape.now) }
    ensures { result ≡ walk_place tape.now count r }
{
    if names_entry(r.number) {
        return entry_place(tape, count, r.place);
    }
    r.place
}
