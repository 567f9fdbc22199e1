// Hex digits (document 01, modules 3 and 5): the value of one, and which bytes an integer's digits are made of, told by ranges and bits. Escapes and digit
// runs stand on it.
#![tactic(auto)]

ghost use Rattle.std.specs.Prelude.{◌≡◌};
ghost use Rattle.text.specs.Classes.{hex_digit, int_char};
ghost use Rattle.hexes.specs.Hex.{hex_answer};
ghost use Rattle.hexes.specs.inner.Bits.{among};

// A bit for each byte from `0` to `f`, set for the class: one test, which the processor guesses right whichever digit it is.
const HEX_DIGITS: u64 = 0x7e0000007e03ff;

const INT_CHARS: u64 = 0x7e8000007e03ff;

// The byte's bit is set in the class.
fn is_among(class: u64, c: u8) -> bool
    ensures { result ≡ among class c }
{
    (b'0'..=b'f').contains(&c) && (class >> (c - b'0') as u64) % 2 == 1
}

// 0 to 9, A to F, a to f.
pub fn is_hex_digit(c: u8) -> bool
    ensures { result ≡ hex_digit c }
{
    is_among(HEX_DIGITS, c)
}

// Hex digits and the underscore.
pub fn is_int_char(c: u8) -> bool
    ensures { result ≡ int_char c }
{
    is_among(INT_CHARS, c)
}

// The value of a hex digit; letters stand 9 behind what their last four bits say.
pub fn decode_hex(c: u8) -> Option<u8>
    ensures { result ≡ hex_answer c }
{
    if !is_hex_digit(c) {
        return None;
    }
    let value = c % 16 + c / 64 * 9;
    Some(value)
}
