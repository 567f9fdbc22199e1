// Marks on a lent slice of bytes.
ghost use Rattle.std.specs.Prelude.{◌≤◌, ◌≡◌, length, drop};
ghost use Rattle.lent.specs.Marks.{byte_mark_at, marked, kept_from};

use crate::marks::{self, Markable};

// The mark of a place: not that of the next place.
impl Markable for u8 {
    ghost mark = { byte_mark_at };

    fn mark_at(i: usize) -> u8 {
        (i % 251) as u8
    }
}

// Marks every byte.
pub fn mark(s: &mut [u8])
    ensures { s.new ≡ marked byte_mark_at (length s.old) 0 s.old }
{
    marks::mark(s);
}

// Whether all bytes from a place on still have their marks.
pub fn kept(s: &[u8], from: usize) -> bool
    ensures { result ≡ kept_from byte_mark_at (drop from s.now) from }
{
    marks::kept(s, from)
}
