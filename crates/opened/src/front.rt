// What a part begins with, told as the search for what is not closed goes on.
ghost use Rattle.std.specs.Prelude.{◌≡◌, ◌<◌, length, drop};
ghost use Rattle.comments.specs.Blocks.{block_end};
ghost use Rattle.comments.specs.Gaps.{block_item, line_item, comment_of};
ghost use Rattle.comments.specs.Lines.{line_end};
ghost use Rattle.opened.specs.Fronts.{by_literal, literal_front, by_item, front_of};

use comments::{block_comment, line_comment};
use strings::Literal;
use strings::runs::find_quote;
use text::Refusal;
use text::bytes::peek;
use text::classes::blank_width;

// What the search does with the front of a part.
#[derive(Clone, Copy)]
pub enum Front {
    // So many bytes to pass: whitespace, a comment, a string, or one byte of anything else.
    Passes(usize),
    // A block comment that is not closed.
    OpenComment,
    // A string that is not closed; its quote stands so many bytes on.
    OpenString(usize),
}

// Behind `/*`.
fn block_front(s: &[u8]) -> Front
    requires { 1 < length s.now }
    ensures { result ≡ by_item (block_item (block_end (drop 2 s.now))) s.now }
{
    let end = block_comment(&s[2..]);
    match end {
        Some(n) => {
            let taken = n + 2;
            Front::Passes(taken)
        }
        None => Front::OpenComment,
    }
}

// Behind `//`.
fn line_front(s: &[u8]) -> Front
    requires { 1 < length s.now }
    ensures { result ≡ by_item (line_item (line_end (drop 2 s.now))) s.now }
{
    let end = line_comment(&s[2..]);
    match end {
        Some(n) => {
            let taken = n + 2;
            Front::Passes(taken)
        }
        None => Front::Passes(s.len()),
    }
}

// The quote of a string that is not closed is the first one: before it only `b`, `r` and hashes can stand.
fn by_literal(s: &[u8], a: Result<Literal, Refusal>) -> Front
    ensures { result ≡ by_literal a s.now }
{
    match a {
        Ok(l) => Front::Passes(l.len),
        Err(r) => {
            if r.number == Refusal::EXPECTED_STRING_END {
                return Front::OpenString(find_quote(s));
            }
            Front::Passes(1)
        }
    }
}

fn literal_front(s: &[u8]) -> Front
    ensures { result ≡ literal_front s.now }
{
    if peek(s, 0) == b'b' {
        return by_literal(s, strings::byte_string_no_base64(s));
    }
    by_literal(s, strings::string(s))
}

// What is no whitespace.
fn other_front(s: &[u8]) -> Front
    ensures { result ≡ by_item (comment_of s.now) s.now }
{
    if s.len() == 0 {
        return literal_front(s);
    }
    if s[0] != b'/' {
        return literal_front(s);
    }
    if s.len() == 1 {
        return Front::Passes(1);
    }
    let b = s[1];
    if b == b'/' {
        return line_front(s);
    }
    if b == b'*' {
        return block_front(s);
    }
    Front::Passes(1)
}

// What a part begins with: whitespace, a comment, a string, or anything else.
pub fn front_of(s: &[u8]) -> Front
    ensures { result ≡ front_of s.now }
{
    let width = blank_width(peek(s, 0), peek(s, 1), peek(s, 2));
    if 0 < width {
        return Front::Passes(width);
    }
    other_front(s)
}
