// Rows of a tape: so many numbers to an entry.
ghost use Rattle.std.specs.Prelude.{◌≡◌, ◌*◌, ◌^◌, ◌<◌, length};
ghost use Rattle.rows.specs.Rows.{width, room_of, entry_at, written};

use crate::Entry;

// How many numbers an entry has.
const WIDTH: usize = 5;

// How many entries a tape has room for.
pub fn room(tape: &[u32]) -> usize
    ensures { result ≡ room_of (length tape.now) }
{
    tape.len() / WIDTH
}

// Where row i begins.
pub fn begins(i: usize) -> usize
    requires { width * i < 2 ^ 64 }
    ensures { result ≡ width * i }
{
    WIDTH * i
}

// The entry in row i.
pub fn entry(tape: &[u32], i: usize) -> Entry
    requires { i < room_of (length tape.now) }
    ensures { result ≡ entry_at tape.now i }
{
    let at = WIDTH * i;
    Entry {
        kind: tape[at],
        start: tape[at + 1],
        end: tape[at + 2],
        detail: tape[at + 3],
        gap: tape[at + 4],
    }
}

// An entry into row i.
pub fn write(tape: &mut [u32], i: usize, e: Entry)
    requires { i < room_of (length tape.old) }
    ensures { tape.new ≡ written tape.old i e }
{
    let at = WIDTH * i;
    tape[at] = e.kind;
    tape[at + 1] = e.start;
    tape[at + 2] = e.end;
    tape[at + 3] = e.detail;
    tape[at + 4] = e.gap;
}
