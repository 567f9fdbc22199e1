// Marks on a lent slice of 32-bit numbers.
ghost use Rattle.std.specs.Prelude.{◌≤◌, ◌≡◌, length, drop};
ghost use Rattle.lent.specs.Marks.{mark_at, marked, kept_from};

use crate::marks::{self, Markable};

// The mark of a place: larger than any entry or link that a call writes, and not that of the next place.
pub fn mark_at(i: usize) -> u32
    ensures { result ≡ mark_at i }
{
    let low = (i % 65536) as u32;
    4294967295 - low
}

impl Markable for u32 {
    ghost mark = { mark_at };

    fn mark_at(i: usize) -> u32 {
        mark_at(i)
    }
}

// Marks every number.
pub fn mark(s: &mut [u32])
    ensures { s.new ≡ marked mark_at (length s.old) 0 s.old }
{
    marks::mark(s);
}

// Whether all numbers from a place on still have their marks.
pub fn kept(s: &[u32], from: usize) -> bool
    ensures { result ≡ kept_from mark_at (drop from s.now) from }
{
    marks::kept(s, from)
}
