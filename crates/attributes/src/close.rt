// How an attribute ends.
ghost use Rattle.std.specs.Prelude.{◌≡◌};
ghost use Rattle.attributes.specs.Close.{no_end, list_end, close_list, string_end, string_from};

use crate::steps;
use text::Refusal;
use text::bytes::peek;
use text::refusal::placed_behind;

// A `]` without the `)` before it: the whitespace behind it is looked at all the same.
fn no_end(s: &[u8], at: usize) -> Result<(usize, u32), Refusal>
    ensures { result ≡ no_end s.now at }
{
    steps::skip_ws(s, at)?;
    Err(Refusal::expected_attribute_end(0))
}

// Behind the `)`, if there was one.
fn list_end(s: &[u8], all: bool, at: usize, extensions: u32) -> Result<(usize, u32), Refusal>
    ensures { result ≡ list_end s.now all at extensions }
{
    if peek(s, at) != b']' {
        return Err(Refusal::expected_attribute_end(0));
    }
    let end = at + 1;
    if all {
        return Ok((end, extensions));
    }
    no_end(s, end)
}

// Behind the list of extensions: `)` and `]`.
pub fn close_list(s: &[u8], at: usize, extensions: u32) -> Result<(usize, u32), Refusal>
    ensures { result ≡ close_list s.now at extensions }
{
    let (all, place) = steps::consume(s, b')', Ok((true, at)))?;
    list_end(s, all, place, extensions)
}

// Behind a string.
fn string_end(s: &[u8], at: usize) -> Result<(usize, u32), Refusal>
    ensures { result ≡ string_end s.now at }
{
    let place = steps::skip_ws(s, at)?;
    list_end(s, true, place, 0)
}

// A string, and `]`.
pub fn string_value(s: &[u8], at: usize) -> Result<(usize, u32), Refusal>
    ensures { result ≡ string_from s.now at }
{
    if s.len() <= at {
        return Err(Refusal::expected_string(at));
    }
    let found = strings::string(&s[at..]);
    match found {
        Ok(l) => {
            let end = at + l.len;
            string_end(s, end)
        }
        Err(r) => Err(placed_behind(r, at)),
    }
}
