// The whitespace and comments that a piece goes on with.
ghost use Rattle.std.specs.Prelude.{◌≡◌, ◌+◌, ◌<◌, ◌≤◌, ◌^◌, length};
ghost use Rattle.gaps.specs.Opens.{level_of};
ghost use Rattle.gaps.specs.Passes.{passed_of};
ghost use Rattle.gaps.specs.inner.Steps.{clear_at, line_at, block_at};
ghost use Rattle.gaps.specs.declared.state.Open.TheVariants.{Slash, Block};

use crate::block::{block_rest, mark_byte};
use crate::state::Open;
use crate::step::{Step, step_at};
use comments::{Decision, decide, is_blank};
use text::utf8::char_len;

// Where the whitespace and comments end that a piece goes on with.
#[derive(Clone, Copy)]
pub enum Passed {
    // A token, or what starts none, begins behind so many bytes; fewer than there are.
    Begins(usize),
    // They reach to the piece's end, where this is open.
    Within(Open),
    // 5: a character behind a `/` that starts no comment; its place, counted from the piece's front.
    Unexpected(usize),
}

// From a place where nothing is open. Most of it is whitespace of one byte, so that is asked first.
fn from_clear(s: &[u8], from: usize) -> Passed
    requires { (from ≤ length s.now) × (length s.now < 2 ^ 32) }
    ensures { result ≡ clear_at s.now from }
{
    let mut i = from;
    while i < s.len() {
        if is_blank(s[i]) {
            i += 1;
            continue;
        }
        let step = step_at(&s[i..]);
        match step {
            Step::On(n) => {
                i += n;
            }
            Step::Still(o) => {
                return Passed::Within(o);
            }
            Step::Odd(n) => {
                let place = i + n;
                return Passed::Unexpected(place);
            }
            Step::Begins => {
                return Passed::Begins(i);
            }
        }
    }
    Passed::Within(Open::Clear)
}

// From a place in a line comment.
fn from_line(s: &[u8], from: usize) -> Passed
    requires { (from ≤ length s.now) × (length s.now < 2 ^ 32) }
    ensures { result ≡ line_at s.now from }
{
    let i = search::find(s, from, b'\n');
    if i < s.len() {
        return from_clear(s, i);
    }
    Passed::Within(Open::Line)
}

// From a place in a block comment with so many others around it.
fn from_block(s: &[u8], from: usize, around: u32) -> Passed
    requires { (from ≤ length s.now) × (around + length s.now < 2 ^ 32) }
    ensures { result ≡ block_at s.now from around }
{
    let rest = block_rest(s, from, around);
    match rest {
        Ok(i) => from_clear(s, i),
        Err(o) => Passed::Within(o),
    }
}

// Behind a `/`, whose next character the piece begins with.
fn behind_slash(s: &[u8]) -> Passed
    requires { length s.now < 2 ^ 32 }
    ensures { result ≡ passed_of Slash s.now }
{
    if s.len() == 0 {
        return Passed::Within(Open::Slash);
    }
    let b = s[0];
    if b == b'/' {
        return from_line(s, 1);
    }
    if b == b'*' {
        return from_block(s, 1, 0);
    }
    Passed::Unexpected(char_len(s))
}

// In a block comment, whose last byte may make a mark with the piece's first.
fn behind_last(s: &[u8], around: u32, last: u8) -> Passed
    requires { around + length s.now + 1 < 2 ^ 32 }
    ensures { result ≡ passed_of (Block around last) s.now }
{
    if s.len() == 0 {
        return Passed::Within(Open::Block(around, mark_byte(last)));
    }
    match decide(last, s[0], around as usize + 1) {
        Decision::Open => from_block(s, 1, around + 1),
        Decision::CloseLast => from_clear(s, 1),
        Decision::CloseInner => from_block(s, 1, around - 1),
        Decision::PassOn => from_block(s, 0, around),
    }
}

// The whitespace and comments that s goes on with, where this is open in front of it.
pub fn pass_gap(open: Open, s: &[u8]) -> Passed
    requires { level_of «open» + length s.now + 1 < 2 ^ 32 }
    ensures { result ≡ passed_of «open» s.now }
{
    match open {
        Open::Clear => from_clear(s, 0),
        Open::Slash => behind_slash(s),
        Open::Line => from_line(s, 0),
        Open::Block(around, last) => behind_last(s, around, last),
    }
}
