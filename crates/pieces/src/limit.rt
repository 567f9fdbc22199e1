// How many bytes of a piece may be taken, and what bars the next.
ghost use Rattle.std.specs.Prelude.{◌≡◌, ◌+◌, ◌-◌, ◌≤◌, length};
ghost use Rattle.pieces.specs.Pieces.{bad_at as badIn, cut_off as cut_of};
ghost use Rattle.pieces.specs.inner.Limits.{limit_of};

use crate::places::sooner;
use octets::{Allowed, allowed};
use text::Refusal;

// How long a text may be.
const MOST_TAKEN: usize = 65536;

// What may be taken of the bytes that are kept and the piece behind them.
#[derive(Clone, Copy)]
pub struct Most {
    // Behind the last byte that may be taken, and behind its last whole character.
    pub end: usize,
    pub whole: usize,
    // What bars the byte that follows, if there is one.
    pub why: Refusal,
}

// The first bad byte of a piece of n bytes, behind `part` bytes of a character; n where there is none.
fn bad_at(all: Allowed, part: usize, n: usize) -> usize
    ensures { result ≡ badIn all part n }
{
    match all {
        Allowed::All(_) => n,
        Allowed::Bad(k, _) => {
            if k <= part {
                return 0;
            }
            k - part
        }
    }
}

// Where its sequence begins.
fn bad_from(all: Allowed) -> usize
    ensures { result ≡ Rattle.pieces.specs.Pieces.bad_from all }
{
    match all {
        Allowed::All(_) => 0,
        Allowed::Bad(_, from) => from,
    }
}

// How many bytes at the end belong to a character that has not come whole.
fn cut_off(all: Allowed) -> usize
    ensures { result ≡ cut_of all }
{
    match all {
        Allowed::All(m) => m,
        Allowed::Bad(_, _) => 0,
    }
}

// The limit of a piece, in s behind `kept` bytes, of which the last `part` belong to a character; `taken` bytes were taken before.
pub fn limit(s: &[u8], taken: usize, kept: usize, part: usize) -> Most
    requires { (part ≤ kept) × (kept ≤ taken) × (taken ≤ 65536) × (kept ≤ length s.now) }
    ensures { result ≡ limit_of s.now taken kept part }
{
    let n = s.len() - kept;
    let begun = kept - part;
    let all = allowed(&s[begun..]);
    let bad = bad_at(all, part, n);
    let left = MOST_TAKEN - taken;
    let m = sooner(left, bad);
    let end = kept + m;
    let cut = cut_off(allowed(&s[begun..end]));
    let whole = end - cut;
    if left <= bad {
        return Most {
            end,
            whole,
            why: Refusal::too_long(),
        };
    }
    let from = taken - part + bad_from(all);
    Most {
        end,
        whole,
        why: Refusal::not_utf8(from),
    }
}
