// `\x`, from behind the `x`: in a string several in a row form one character.
ghost use Rattle.std.specs.Prelude.{◌≡◌, [], ◌∷◌, ◌+◌, ◌<◌, ◌^◌, length};
ghost use Rattle.escapes.specs.Escapes.{next_byte, more_bytes, hex_escape};

use crate::answers::invalid;
use crate::digits::decode_ascii_escape;
use crate::{EscapeAnswer, Mode};
use text::{EscapeReason, utf8};

// One more `\x` with its two digits, where one stands at the front of t.
fn next_byte(t: &[u8], at: usize) -> EscapeAnswer
    requires { at + length t.now < 2 ^ 64 }
    ensures { result ≡ next_byte at t.now }
{
    if t.len() < 2 {
        return invalid(EscapeReason::NotByteEscaped, at);
    }
    if t[0] != b'\\' {
        return invalid(EscapeReason::NotByteEscaped, at);
    }
    if t[1] != b'x' {
        return invalid(EscapeReason::NotByteEscaped, at);
    }
    decode_ascii_escape(&t[2..], at + 2)
}

// Up to three more `\x` behind the byte b, until they form one character.
fn more_bytes(t: &[u8], at: usize, b: u8) -> EscapeAnswer
    requires { at + length t.now < 2 ^ 64 }
    ensures { result ≡ more_bytes 3 (b ∷ []) at t.now }
{
    let mut bytes = [b, 0, 0, 0];
    for n in 1..4 {
        let i = (n - 1) * 4;
        match next_byte(&t[i..], at + i) {
            EscapeAnswer::Ascii(h, p) => {
                bytes[n] = h;
                if utf8::char_len(&bytes) != 0 {
                    return EscapeAnswer::Utf8(utf8::code_point(&bytes), p);
                }
            }
            EscapeAnswer::Utf8(v, p) => {
                return EscapeAnswer::Utf8(v, p);
            }
            EscapeAnswer::Refused(r) => {
                return EscapeAnswer::Refused(r);
            }
        }
    }
    invalid(EscapeReason::NotByteEscaped, at + 12)
}

// t is the part from behind the `x`.
pub fn hex_escape(m: Mode, t: &[u8], at: usize) -> EscapeAnswer
    requires { at + length t.now < 2 ^ 64 }
    ensures { result ≡ hex_escape m at t.now }
{
    match decode_ascii_escape(t, at) {
        EscapeAnswer::Ascii(b, p) => match m {
            Mode::Bytes => EscapeAnswer::Ascii(b, p),
            Mode::Char => {
                if b < 0x80 {
                    return EscapeAnswer::Utf8(b as u32, p);
                }
                invalid(EscapeReason::NotByteEscaped, p)
            }
            Mode::Str => {
                if b < 0x80 {
                    return EscapeAnswer::Utf8(b as u32, p);
                }
                more_bytes(&t[2..], p, b)
            }
        },
        EscapeAnswer::Utf8(v, p) => EscapeAnswer::Utf8(v, p),
        EscapeAnswer::Refused(r) => EscapeAnswer::Refused(r),
    }
}
