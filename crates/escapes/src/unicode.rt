// `\u{}`, from behind the `u`.
ghost use Rattle.std.specs.Prelude.{◌≡◌, ◌+◌, ◌<◌, ◌^◌, length};
ghost use Rattle.escapes.specs.Escapes.{close_of, unicode_escape};

use crate::EscapeAnswer;
use crate::answers::{ended, invalid};
use hexes::decode_hex;
use text::{EscapeReason, utf8};

// Behind the digits; v is what they come to, empty says that there were none.
fn close(t: &[u8], at: usize, empty: bool, v: u32) -> EscapeAnswer
    requires { at + length t.now < 2 ^ 64 }
    ensures { result ≡ close_of empty v at t.now }
{
    if empty {
        return invalid(EscapeReason::NoDigits, at);
    }
    if t.len() == 0 {
        return invalid(EscapeReason::NoClosingBrace, at);
    }
    if t[0] == b'}' {
        if utf8::is_scalar(v) {
            return EscapeAnswer::Utf8(v, at + 1);
        }
        return invalid(EscapeReason::NotACharacter, at + 1);
    }
    invalid(EscapeReason::NoClosingBrace, at)
}

// s is the part from behind the `u`.
pub fn unicode_escape(s: &[u8], at: usize) -> EscapeAnswer
    requires { at + length s.now < 2 ^ 64 }
    ensures { result ≡ unicode_escape at s.now }
{
    if s.len() == 0 {
        return invalid(EscapeReason::MissingOpenBrace, at);
    }
    if s[0] != b'{' {
        return invalid(EscapeReason::MissingOpenBrace, at);
    }
    let mut v: u32 = 0;
    for i in 1..7 {
        if s.len() <= i {
            return ended(at + i);
        }
        let b = s[i];
        if b == b'}' {
            return close(&s[i..], at + i, i == 1, v);
        }
        let digit = decode_hex(b);
        let Some(h) = digit else {
            return invalid(EscapeReason::DigitNotHex, at + i + utf8::char_len(&s[i..]));
        };
        v = v * 16 + h as u32;
    }
    close(&s[7..], at + 7, false, v)
}
