// The bytes of a piece, one decision after the other. Nothing is written: it counts.
ghost use Rattle.std.specs.Prelude.{◌≡◌, ◌≤◌, ◌<◌, length, drop};
ghost use Rattle.octets.specs.Octets.{Cut};
ghost use Rattle.pieces.specs.inner.Runs.{ran_of};

use crate::places::later;
use crate::turn::{Stands, Turned, turn};

// What bytes come to.
#[derive(Clone, Copy)]
pub struct Ran {
    // How many entries, and where the last of them ends.
    pub count: usize,
    pub end: usize,
    // Behind the last byte that was taken.
    pub bytes: usize,
    pub stands: Stands,
}

// What the bytes of s give from where a token begins, the first `kept` having been there before; those from `whole` on belong to a character that has not come whole.
pub fn run(s: &[u8], from: usize, kept: usize, whole: usize) -> Ran
    requires { (from < whole) × (whole ≤ length s.now) × (kept ≤ length s.now) × (length s.now ≤ 65536) × Cut (drop whole s.now) }
    ensures { result ≡ ran_of s.now from kept whole }
{
    let mut at = from;
    let mut seen = later(from, kept);
    let mut count: usize = 0;
    loop {
        let turned = turn(s, at, seen, whole);
        match turned {
            Turned::On(n, end, bytes) => {
                count += n;
                at = end;
                seen = bytes;
            }
            Turned::Over(n, end, bytes, stands) => {
                count += n;
                return Ran {
                    count,
                    end,
                    bytes,
                    stands,
                };
            }
        }
    }
}
