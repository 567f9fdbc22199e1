// What the bytes that are taken give: first the whitespace and comments that the state stands in are passed.
ghost use Rattle.std.specs.Prelude.{◌≡◌, true, ◌≤◌, length, drop};
ghost use Rattle.octets.specs.Octets.{Cut};
ghost use Rattle.pieces.specs.Orders.{open_fits};
ghost use Rattle.pieces.specs.inner.Comes.{come_of};

use crate::places::{later, sooner};
use crate::run::{Ran, run};
use crate::turn::Stands;
use gaps::{Open, Passed, pass_gap};
use text::Refusal;

// What bytes come to, and where their first token begins.
#[derive(Clone, Copy)]
pub struct Reached {
    pub from: usize,
    pub ran: Ran,
}

// What s gives, of which the first `kept` bytes were there before, where this was open; the bytes from `whole` on belong to a character that has not come whole.
pub fn come(left: Open, s: &[u8], kept: usize, whole: usize) -> Reached
    requires { (whole ≤ length s.now) × (kept ≤ length s.now) × (length s.now ≤ 65536) × (open_fits left 65536 ≡ true) × Cut (drop whole s.now) }
    ensures { result ≡ come_of left s.now kept whole }
{
    let gap = pass_gap(left, &s[..whole]);
    match gap {
        Passed::Begins(k) => Reached {
            from: k,
            ran: run(s, k, kept, whole),
        },
        Passed::Within(left) => {
            let ran = Ran {
                count: 0,
                end: 0,
                bytes: s.len(),
                stands: Stands::Within(left),
            };
            Reached { from: 0, ran }
        }
        Passed::Unexpected(p) => {
            let bytes = sooner(later(p, kept + 1), s.len());
            let ran = Ran {
                count: 0,
                end: 0,
                bytes,
                stands: Stands::Stopped(Refusal::unexpected_char(p)),
            };
            Reached { from: 0, ran }
        }
    }
}
