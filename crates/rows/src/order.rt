// Whether the entries of a tape are in order: what walk and repair ask of it (refusal 23).
ghost use Rattle.std.specs.Prelude.{◌≡◌, ◌≤◌, ◌+◌, ◌-◌, ◌*◌, leb, length, drop};
ghost use Rattle.rows.specs.Rows.{width, room_of, entry_at, entries_of};
ghost use Rattle.rows.specs.Order.{orderly, four_orderly, in_order_from, in_order};

use crate::{Entry, kinds, row};

// Whether an entry may stand behind a place: its gap leads from there to its start, so it does not start before it. A sum of two numbers of a tape fits.
fn is_orderly(at: u32, e: Entry) -> bool
    ensures { result ≡ orderly at e }
{
    if e.kind < kinds::OPEN_PAREN {
        return false;
    }
    if kinds::ATTRIBUTE < e.kind {
        return false;
    }
    if e.end <= e.start {
        return false;
    }
    let reached = at as usize + e.gap as usize;
    if reached != e.start as usize {
        return false;
    }
    true
}

fn ends_within(at: u32, limit: usize) -> bool
    ensures { result ≡ leb at limit }
{
    at as usize <= limit
}

// Whether the four entries from row i on may stand behind a place, one behind the other: asked together, since a loop's turn for each row costs more.
fn four_orderly(tape: &[u32], i: usize, at: u32) -> bool
    requires { i + 4 ≤ room_of (length tape.now) }
    ensures { result ≡ four_orderly at (entry_at tape.now i) (entry_at tape.now (i + 1))
        (entry_at tape.now (i + 2)) (entry_at tape.now (i + 3)) }
{
    let a = row::entry(tape, i);
    if !is_orderly(at, a) {
        return false;
    }
    let b = row::entry(tape, i + 1);
    if !is_orderly(a.end, b) {
        return false;
    }
    let c = row::entry(tape, i + 2);
    if !is_orderly(b.end, c) {
        return false;
    }
    let d = row::entry(tape, i + 3);
    is_orderly(c.end, d)
}

// Whether the entries from row `from` on are in order behind a place, and the last ends within the limit.
fn rest_in_order(tape: &[u32], count: usize, limit: usize, from: usize, behind: u32) -> bool
    requires { (count ≤ room_of (length tape.now)) × (from ≤ count) }
    ensures { result ≡ in_order_from (entries_of (count - from) (drop (width * from) tape.now)) behind limit }
{
    let mut at = behind;
    for i in from..count {
        let e = row::entry(tape, i);
        if !is_orderly(at, e) {
            return false;
        }
        at = e.end;
    }
    ends_within(at, limit)
}

// Whether the first `count` entries are in order, and the last ends within the limit: twice four at a time, since walk and repair ask it of every row.
pub fn in_order(tape: &[u32], count: usize, limit: usize) -> bool
    requires { count ≤ room_of (length tape.now) }
    ensures { result ≡ in_order (entries_of count tape.now) limit }
{
    let mut at: u32 = 0;
    let mut i = 0;
    // Eight can begin only at a row with seven behind it.
    let stop = count.saturating_sub(7);
    while i < stop {
        if !four_orderly(tape, i, at) {
            return false;
        }
        let fourth = row::entry(tape, i + 3);
        if !four_orderly(tape, i + 4, fourth.end) {
            return false;
        }
        let eighth = row::entry(tape, i + 7);
        at = eighth.end;
        i += 8;
    }
    rest_in_order(tape, count, limit, i, at)
}
