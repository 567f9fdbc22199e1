// Marks on a lent slice of 64-bit numbers.
ghost use Rattle.std.specs.Prelude.{◌≤◌, ◌≡◌, length, drop};
ghost use Rattle.lent.specs.Marks.{mark_at, marked, kept_from};

use crate::marks::{self, Markable};
use crate::numbers;

// The mark of a place: that of a slice of 32-bit numbers.
impl Markable for u64 {
    ghost mark = { mark_at };

    fn mark_at(i: usize) -> u64 {
        numbers::mark_at(i) as u64
    }
}

// Marks every number.
pub fn mark(s: &mut [u64])
    ensures { s.new ≡ marked mark_at (length s.old) 0 s.old }
{
    marks::mark(s);
}

// Whether all numbers from a place on still have their marks.
pub fn kept(s: &[u64], from: usize) -> bool
    ensures { result ≡ kept_from mark_at (drop from s.now) from }
{
    marks::kept(s, from)
}
