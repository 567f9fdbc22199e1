// Searches over the old entries.
ghost use Rattle.std.specs.Prelude.{◌≡◌, ◌≤◌, ◌<◌, ◌+◌, ◌-◌, ◌^◌, length, take};
ghost use Rattle.reading.specs.Readings.{end_of};
ghost use Rattle.rows.specs.Rows.{room_of, entries_of};
ghost use Rattle.repair.specs.Repair.{leading, ends_before, seek_of};
ghost use Rattle.repair.specs.inner.Steps.{InOrder, seek_from, met_of};

use crate::place::wide;
use rows::row;

// Whether a new entry joins at an old one, and the row where the search stands. No `Result`: that none joins is no failure.
#[derive(Clone, Copy)]
pub enum Met {
    At(usize),
    Next(usize),
}

// How many entries from the first on end before q: searched by halves, since no entry of a tape in order ends before a former one; by hand, since a flat tape
// is no slice of rows, as `partition_point` asks.
pub fn ends_before(tape: &[u32], count: usize, q: usize) -> usize
    requires { (count ≤ room_of (length tape.now)) × InOrder (entries_of count tape.now) }
    ensures { result ≡ leading (ends_before q) (entries_of count tape.now) }
{
    let mut low = 0;
    let mut high = count;
    while low < high {
        let half = low + (high - low) / 2;
        let old = row::entry(tape, half);
        if wide(old.end) < q {
            low = half + 1;
        } else {
            high = half;
        }
    }
    low
}

// Where the last of the first j entries ends.
pub fn resume_at(tape: &[u32], j: usize) -> usize
    requires { j ≤ room_of (length tape.now) }
    ensures { result ≡ end_of 0 (entries_of j tape.now) }
{
    if j == 0 {
        return 0;
    }
    let last = row::entry(tape, j - 1);
    wide(last.end)
}

// The first entry from a row on that does not start before q.
fn seek(tape: &[u32], count: usize, from: usize, q: usize) -> usize
    requires { (count ≤ room_of (length tape.now)) × (from ≤ count) }
    ensures { result ≡ seek_from (entries_of count tape.now) from q }
{
    for i in from..count {
        let old = row::entry(tape, i);
        if q <= wide(old.start) {
            return i;
        }
    }
    count
}

// Whether a new entry that starts at a place, behind a gap, joins the old ones, the search standing at row i.
pub fn meet(
    tape: &[u32],
    count: usize,
    i: usize,
    gap: usize,
    start: usize,
    b: usize,
    e: usize,
) -> Met
    requires { (count ≤ room_of (length tape.now)) × (e ≤ start → i ≤ seek_of (entries_of count tape.now) b e start) × (start - e + b < 2 ^ 64) }
    ensures { result ≡ met_of (entries_of count tape.now) b e i gap start }
{
    if start < e {
        return Met::Next(i);
    }
    let q = start - e + b;
    let k = seek(tape, count, i, q);
    if count <= k {
        return Met::Next(k);
    }
    let old = row::entry(tape, k);
    if wide(old.start) != q {
        return Met::Next(k);
    }
    if wide(old.gap) != gap {
        return Met::Next(k);
    }
    Met::At(k)
}
