// Hex digits: a character is taken, then judged, so that 13 stands behind it.
ghost use Rattle.std.specs.Prelude.{◌≡◌, ◌+◌, ◌<◌, ◌^◌, length};
ghost use Rattle.escapes.specs.Escapes.{second_digit, two_digits};

use crate::EscapeAnswer;
use crate::answers::{ended, invalid};
use hexes::decode_hex;
use text::{EscapeReason, utf8};

// The second of two digits, at the front of t; h is the first.
fn second_digit(t: &[u8], at: usize, h: u8) -> EscapeAnswer
    requires { (at + length t.now < 2 ^ 64) × (h < 16) }
    ensures { result ≡ second_digit h at t.now }
{
    if t.len() == 0 {
        return ended(at);
    }
    let digit = decode_hex(t[0]);
    let Some(k) = digit else {
        return invalid(EscapeReason::DigitNotHex, at + utf8::char_len(t));
    };
    EscapeAnswer::Ascii(h * 16 + k, at + 1)
}

// Two digits at the front of t.
pub fn decode_ascii_escape(t: &[u8], at: usize) -> EscapeAnswer
    requires { at + length t.now < 2 ^ 64 }
    ensures { result ≡ two_digits at t.now }
{
    if t.len() == 0 {
        return ended(at);
    }
    let digit = decode_hex(t[0]);
    let Some(h) = digit else {
        return invalid(EscapeReason::DigitNotHex, at + utf8::char_len(t));
    };
    second_digit(&t[1..], at + 1, h)
}
