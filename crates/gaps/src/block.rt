// Block comments that a piece goes on with.
ghost use Rattle.std.specs.Prelude.{◌≡◌, ◌+◌, ◌<◌, ◌≤◌, ◌^◌, length};
ghost use Rattle.gaps.specs.Opens.{unpaired};
ghost use Rattle.gaps.specs.inner.Steps.{rest_of};

use crate::state::Open;
use comments::{Decision, decide};
use text::bytes::peek;

// A byte that may be the first of a mark, and 0 for every other.
pub fn mark_byte(b: u8) -> u8
    ensures { result ≡ unpaired b }
{
    if b == b'*' {
        return b;
    }
    if b == b'/' {
        return b;
    }
    0
}

// Where a block comment with so many others around it ends, from a place in it on: behind the mark that closes it, or what is open at the piece's end.
pub fn block_rest(s: &[u8], from: usize, around: u32) -> Result<usize, Open>
    requires { (from ≤ length s.now) × (around + length s.now < 2 ^ 32) }
    ensures { result ≡ rest_of s.now from around }
{
    let mut level = around as usize + 1;
    let mut i = from;
    loop {
        // On to the next byte that could begin a mark, for speed, as `block_comment` does.
        i = search::find_either(s, i, b'*', b'/');
        if s.len() - i < 2 {
            let others = level - 1;
            let last = mark_byte(peek(s, i));
            return Err(Open::Block(others as u32, last));
        }
        match decide(s[i], s[i + 1], level) {
            Decision::Open => {
                level += 1;
                i += 2;
            }
            Decision::CloseLast => {
                return Ok(i + 2);
            }
            Decision::CloseInner => {
                level -= 1;
                i += 2;
            }
            Decision::PassOn => {
                i += 1;
            }
        }
    }
}
