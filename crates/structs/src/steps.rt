// One step of the scan: over what may hold spurious brackets, then one byte.
ghost use Rattle.std.specs.Prelude.{◌≡◌};
ghost use Rattle.structs.specs.Scan.{marked_by, past_spurious, step_of};

use crate::passes::{skip_byte_string, skip_char, skip_string, skip_ws};
use text::Refusal;

// The byte that a step ends behind, and how many bytes the step takes.
#[derive(Clone, Copy)]
pub enum Step {
    Opening(usize),
    Closing(usize),
    Comma(usize),
    Plain(usize),
    Refused(Refusal),
}

// A step of n bytes that ends with the byte c.
fn marked(c: u8, n: usize) -> Step
    ensures { result ≡ marked_by c n }
{
    if c == b'(' {
        return Step::Opening(n);
    }
    if c == b'[' {
        return Step::Opening(n);
    }
    if c == b'{' {
        return Step::Opening(n);
    }
    if c == b')' {
        return Step::Closing(n);
    }
    if c == b']' {
        return Step::Closing(n);
    }
    if c == b'}' {
        return Step::Closing(n);
    }
    if c == b',' {
        return Step::Comma(n);
    }
    Step::Plain(n)
}

// Behind comments, chars and strings, whose brackets and commas do not count.
fn skip_spurious(s: &[u8]) -> Result<usize, Refusal>
    ensures { result ≡ past_spurious s.now }
{
    let begun = skip_ws(s, Ok(0));
    let char_passed = skip_char(s, begun);
    let string_passed = skip_string(s, char_passed);
    let bytes_passed = skip_byte_string(s, string_passed);
    skip_ws(s, bytes_passed)
}

// The next step: what holds no bracket that counts, and the byte behind it; 6 at the end of the text.
pub fn next_step(s: &[u8]) -> Step
    ensures { result ≡ step_of s.now }
{
    let passed = skip_spurious(s);
    match passed {
        Ok(n) => {
            if s.len() <= n {
                return Step::Refused(Refusal::eof(n));
            }
            marked(s[n], n + 1)
        }
        Err(refusal) => Step::Refused(refusal),
    }
}
