// Entries on the tape, at their places in the text.
ghost use Rattle.std.specs.Prelude.{◌≡◌, true, map, ◌+◌, ◌≤◌, ◌<◌, ◌^◌, length, take};
ghost use Rattle.reading.specs.Readings.{read_from, entries};
ghost use Rattle.rows.specs.Order.{in_order_from};
ghost use Rattle.rows.specs.Rows.{entries_of, laid, room_of};
ghost use Rattle.tokens.specs.Ron.{ron_token};
ghost use Rattle.pieces.specs.Pieces.{gapped, moved_to};

use read::fill::fill;
use rows::{Entry, row};

// The entries of the first n rows, counted from a place of the text, with their gaps behind the former entry's end.
fn place_rows(tape: &mut [u32], n: usize, base: usize, former: usize, from: usize, limit: usize)
    requires { (n ≤ room_of (length tape.old)) × (in_order_from (entries_of n tape.old) from limit ≡ true) × (former ≤ base + from) × (base + limit < 2 ^ 32) }
    ensures { tape.new ≡ laid (gapped former (map (moved_to base) (entries_of n tape.old))) tape.old }
{
    let mut behind = former;
    for i in 0..n {
        let e = row::entry(&tape[..], i);
        let start = base + e.start as usize;
        let end = base + e.end as usize;
        let gap = start - behind;
        let placed = Entry {
            kind: e.kind,
            start: start as u32,
            end: end as u32,
            detail: e.detail,
            gap: gap as u32,
        };
        row::write(tape, i, placed);
        behind = end;
    }
}

// The first n entries of s from a place on, counted from a place of the text.
pub fn lay(s: &[u8], from: usize, tape: &mut [u32], n: usize, base: usize, former: usize)
    requires { (length s.now ≤ 65536) × (from ≤ length s.now) × (n ≤ room_of (length tape.old)) × (n ≤ length (entries (read_from ron_token s.now from)))
        × (former ≤ base + from) × (base ≤ 65536) }
    ensures { tape.new ≡ laid (gapped former (map (moved_to base) (take n (entries (read_from ron_token s.now from))))) tape.old }
{
    fill(s, from, tape, n);
    place_rows(tape, n, base, former, from, s.len());
}
