// One blank or comment of a piece.
ghost use Rattle.std.specs.Prelude.{◌≡◌, ◌<◌, ◌^◌, length};
ghost use Rattle.comments.specs.Gaps.{comment_of, item_of};
ghost use Rattle.gaps.specs.inner.Steps.{step_by};

use crate::block::block_rest;
use crate::state::Open;
use comments::line_comment;
use text::bytes::peek;
use text::classes::blank_width;
use text::utf8::char_len;

// What a part of a piece begins with.
#[derive(Clone, Copy)]
pub enum Step {
    // A whitespace character or a closed comment, of so many bytes.
    On(usize),
    // A comment, or a `/`, that is open at the end.
    Still(Open),
    // A `/` and another character, of so many bytes together.
    Odd(usize),
    // None of these.
    Begins,
}

// The comment that s begins with.
fn comment_step(s: &[u8]) -> Step
    requires { length s.now < 2 ^ 32 }
    ensures { result ≡ step_by s.now (comment_of s.now) }
{
    if s.len() == 0 {
        return Step::Begins;
    }
    if s[0] != b'/' {
        return Step::Begins;
    }
    if s.len() == 1 {
        return Step::Still(Open::Slash);
    }
    let b = s[1];
    if b == b'/' {
        let Some(n) = line_comment(&s[2..]) else {
            return Step::Still(Open::Line);
        };
        let taken = n + 2;
        return Step::On(taken);
    }
    if b == b'*' {
        let rest = block_rest(s, 2, 0);
        return match rest {
            Ok(n) => Step::On(n),
            Err(o) => Step::Still(o),
        };
    }
    let taken = 1 + char_len(&s[1..]);
    Step::Odd(taken)
}

// What s begins with.
pub fn step_at(s: &[u8]) -> Step
    requires { length s.now < 2 ^ 32 }
    ensures { result ≡ step_by s.now (item_of s.now) }
{
    let width = blank_width(peek(s, 0), peek(s, 1), peek(s, 2));
    if 0 < width {
        return Step::On(width);
    }
    comment_step(s)
}
