// Escapes (document 01, module 3), over the part of the text from behind the `\`: `\x` with two digits, `\u` with one to six in braces, and the letters;
// refusal 13 at its places, with the reason.
//
// `parse_escape` takes the mode (char, string, byte string) and answers the value with its length. Proved beyond the contracts: an accepted escape lies
// within the part and so does the place of a refused one (Bounded), nothing behind it changes the answer (Closed), and its value is one scalar value or
// one byte (Decoded).
#![tactic(auto)]

pub mod answers;
pub mod digits;
pub mod hex;
pub mod unicode;

ghost use Rattle.std.specs.Prelude.{◌≡◌};
ghost use Rattle.escapes.specs.Escapes.{simple_answer, escape_of};

pub use answers::{EscapeAnswer, Mode, in_byte_literal};
use answers::{ended, invalid};
use text::{EscapeReason, utf8};

// What a letter behind the `\` stands for by itself, as `n` does.
#[tactic(auto, unfolding(crate::specs::Escapes::simple_of))]
fn simple(b: u8) -> Option<u8>
    ensures { result ≡ simple_answer b }
{
    match b {
        b'\'' => Some(0x27),
        b'"' => Some(0x22),
        b'\\' => Some(0x5C),
        b'n' => Some(0x0A),
        b'r' => Some(0x0D),
        b't' => Some(0x09),
        b'0' => Some(0x00),
        _ => None,
    }
}

// The escape at the front of s.
pub fn parse_escape(m: Mode, s: &[u8]) -> EscapeAnswer
    ensures { result ≡ escape_of m s.now }
{
    if s.len() == 0 {
        return ended(0);
    }
    let b = s[0];
    if let Some(k) = simple(b) {
        return EscapeAnswer::Ascii(k, 1);
    }
    if b == b'x' {
        return hex::hex_escape(m, &s[1..], 1);
    }
    if b == b'u' {
        return unicode::unicode_escape(&s[1..], 1);
    }
    invalid(EscapeReason::UnknownLetter, utf8::char_len(s))
}
