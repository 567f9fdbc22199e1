// Names as tokens: `inf` and `NaN`, alone or with a suffix, are floats.
ghost use Rattle.std.specs.Prelude.{◌≡◌, ◌≤◌, length};
ghost use Rattle.names.specs.Classify.{begins_float, suffixed, named, word_of};
ghost use Rattle.names.specs.Classify.{missing as missingOf};

use crate::identifiers::skip_identifier;
use crate::starts::{begins_raw, starts_with3};
use crate::{Identifier, Word};
use text::Refusal;

// Whether the part begins with `inf` or `NaN`.
fn begins_float(s: &[u8]) -> bool
    ensures { result ≡ begins_float s.now }
{
    if starts_with3(s, b'i', b'n', b'f') {
        return true;
    }
    starts_with3(s, b'N', b'a', b'N')
}

// A name of n bytes, by its last three.
fn suffixed_name(t: &[u8], n: usize) -> Word
    ensures { result ≡ suffixed t.now n }
{
    if starts_with3(t, b'f', b'3', b'2') {
        return Word::Float(n, 32);
    }
    if starts_with3(t, b'f', b'6', b'4') {
        return Word::Float(n, 64);
    }
    Word::Plain(n)
}

// A name of n bytes at the front.
fn name(s: &[u8], n: usize) -> Word
    requires { n ≤ length s.now }
    ensures { result ≡ named s.now n }
{
    if !begins_float(s) {
        return Word::Plain(n);
    }
    if n == 3 {
        return Word::Float(n, 0);
    }
    if n == 6 {
        return suffixed_name(&s[3..], n);
    }
    Word::Plain(n)
}

fn missing(s: &[u8]) -> Refusal
    ensures { result ≡ missingOf s.now }
{
    if begins_raw(s) {
        return Refusal::expected_string(2);
    }
    Refusal::unexpected_char(0)
}

// The token at the front of a part where none but a name can begin.
pub fn word(s: &[u8]) -> Word
    ensures { result ≡ word_of s.now }
{
    let found = skip_identifier(s);
    match found {
        Identifier::Missing => Word::Refused(missing(s)),
        Identifier::Name(n) => name(s, n),
        Identifier::RawName(n) => Word::Raw(n),
    }
}
