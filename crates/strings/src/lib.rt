// Strings, byte strings, chars and byte literals (document 01, module 4), each over the part of the text that begins with it; refusals 14 to 18, and 13
// from within.
//
// `quoted` and `raw` measure, `decode` writes what was measured, piece by piece as specs/Pieces cuts the contents. Proved beyond the contracts: a string
// lies within the text and is read the same whatever stands behind its closing mark (Bounds, Closes), decoded contents are UTF-8 where the text is
// (Encodes), and what is decoded has the length that was measured (Wholes).
#![tactic(auto)]

pub mod chars;
pub mod decode;
pub mod literal;
pub mod pieces;
pub mod quoted;
pub mod raw;
pub mod runs;

ghost use Rattle.std.specs.Prelude.{◌≡◌};
ghost use Rattle.strings.specs.Strings.{string_of, byte_string_of};

use escapes::Mode;
pub use literal::Literal;
use text::Refusal;

// The string that the part begins with, quoted or raw.
pub fn string(s: &[u8]) -> Result<Literal, Refusal>
    ensures { result ≡ string_of s.now }
{
    if s.len() == 0 {
        return Err(Refusal::expected_string(0));
    }
    if s[0] == b'"' {
        return quoted::quoted(Mode::Str, s, 1);
    }
    if s[0] == b'r' {
        return raw::raw(Mode::Str, s, 1);
    }
    Err(Refusal::expected_string(0))
}

// The byte string that the part begins with, quoted or raw; after the crate's function of this name, which looks for no base64.
pub fn byte_string_no_base64(s: &[u8]) -> Result<Literal, Refusal>
    ensures { result ≡ byte_string_of s.now }
{
    if s.len() < 2 {
        return Err(Refusal::expected_byte_string(0));
    }
    if s[0] != b'b' {
        return Err(Refusal::expected_byte_string(0));
    }
    if s[1] == b'"' {
        return quoted::quoted(Mode::Bytes, s, 2);
    }
    if s[1] == b'r' {
        return raw::raw(Mode::Bytes, s, 2);
    }
    Err(Refusal::expected_byte_string(0))
}
