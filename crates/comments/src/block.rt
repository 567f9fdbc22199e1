// Block comments, which nest.
ghost use Rattle.std.specs.Prelude.{◌≡◌};
ghost use Rattle.comments.specs.Blocks.{decision_of, block_end};

// What the two bytes at hand do to a block comment.
#[derive(Clone, Copy)]
pub enum Decision {
    // One more comment is open.
    Open,
    // The last open comment is closed: here it all ends.
    CloseLast,
    // An inner comment is closed: one fewer is open.
    CloseInner,
    // No mark: one byte further.
    PassOn,
}

// The two bytes at hand, and the level beside them: how many comments are open.
#[derive(Clone, Copy)]
struct AtHand(u8, u8, usize);

// The rule of nesting, one decision: what the bytes a and b do where `level` comments are open.
pub fn decide(a: u8, b: u8, level: usize) -> Decision
    ensures { result ≡ decision_of a b level }
{
    match AtHand(a, b, level) {
        AtHand(b'/', b'*', _) => Decision::Open,
        AtHand(b'*', b'/', 1) => Decision::CloseLast,
        AtHand(b'*', b'/', _) => Decision::CloseInner,
        _ => Decision::PassOn,
    }
}

// s is what stands behind the opening mark.
pub fn block_comment(s: &[u8]) -> Option<usize>
    ensures { result ≡ block_end s.now }
{
    let mut level: usize = 1;
    let mut i: usize = 0;
    loop {
        // On to the next byte that could begin a mark. It is here for speed: without it each byte before would be passed on by itself.
        i = search::find_either(s, i, b'*', b'/');
        if s.len() - i < 2 {
            return None;
        }
        match decide(s[i], s[i + 1], level) {
            Decision::Open => {
                level += 1;
                i += 2;
            }
            Decision::CloseLast => {
                return Some(i + 2);
            }
            Decision::CloseInner => {
                level -= 1;
                i += 2;
            }
            Decision::PassOn => {
                i += 1;
            }
        }
    }
}
