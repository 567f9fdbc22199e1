// Rows moved and cleared.
ghost use Rattle.std.specs.Prelude.{◌≡◌, ◌≤◌, ◌<◌, ◌+◌, ◌*◌, length, drop};
ghost use Rattle.rows.specs.Rows.{width, room_of, entry_at, entries_of, written};
ghost use Rattle.repair.specs.Repair.{no_entry};
ghost use Rattle.repair.specs.inner.Steps.{MovableRow, Movable, clipped_from, shifted, emptied};

use crate::place::moved_place;
use rows::{Entry, row};

// One row to another, its places moved.
fn shift_row(tape: &mut [u32], f: usize, g: usize, b: usize, e: usize)
    requires { (f < room_of (length tape.old)) × (g < room_of (length tape.old)) × MovableRow b e (entry_at tape.old f) }
    ensures { tape.new ≡ written tape.old g (clipped_from b e (entry_at tape.old f)) }
{
    let old = row::entry(&tape[..], f);
    let new = Entry {
        kind: old.kind,
        start: moved_place(old.start, b, e),
        end: moved_place(old.end, b, e),
        detail: old.detail,
        gap: old.gap,
    };
    row::write(tape, g, new);
}

// m rows from f on to rows further in front, from the first to the last.
fn shift_up(tape: &mut [u32], m: usize, f: usize, g: usize, b: usize, e: usize)
    requires { (g ≤ f) × (f + m ≤ room_of (length tape.old)) × Movable b e (entries_of m (drop (width * f) tape.old)) }
    ensures { tape.new ≡ shifted b e m f g tape.old }
{
    for k in 0..m {
        shift_row(tape, f + k, g + k, b, e);
    }
}

// m rows from f on to rows further behind, from the last to the first.
fn shift_down(tape: &mut [u32], m: usize, f: usize, g: usize, b: usize, e: usize)
    requires { (f ≤ g) × (g + m ≤ room_of (length tape.old)) × Movable b e (entries_of m (drop (width * f) tape.old)) }
    ensures { tape.new ≡ shifted b e m f g tape.old }
{
    for k in (0..m).rev() {
        shift_row(tape, f + k, g + k, b, e);
    }
}

// m rows from f on where they stand: only their places move, and nothing is written where these do not move either.
fn stay(tape: &mut [u32], m: usize, f: usize, b: usize, e: usize)
    requires { (f + m ≤ room_of (length tape.old)) × Movable b e (entries_of m (drop (width * f) tape.old)) }
    ensures { tape.new ≡ shifted b e m f f tape.old }
{
    if b == e {
        return;
    }
    shift_up(tape, m, f, f, b, e);
}

// m rows from f on to the rows from g on.
pub fn shift(tape: &mut [u32], m: usize, f: usize, g: usize, b: usize, e: usize)
    requires { (f + m ≤ room_of (length tape.old)) × (g + m ≤ room_of (length tape.old)) × Movable b e (entries_of m (drop (width * f) tape.old)) }
    ensures { tape.new ≡ shifted b e m f g tape.old }
{
    if f == g {
        stay(tape, m, f, b, e);
        return;
    }
    if g <= f {
        shift_up(tape, m, f, g, b, e);
        return;
    }
    shift_down(tape, m, f, g, b, e);
}

// Zeros in the rows from x to y.
pub fn clear(tape: &mut [u32], x: usize, y: usize)
    requires { y ≤ room_of (length tape.old) }
    ensures { tape.new ≡ emptied x y tape.old }
{
    if y <= x {
        return;
    }
    tape[row::begins(x)..row::begins(y)].fill(0);
}
