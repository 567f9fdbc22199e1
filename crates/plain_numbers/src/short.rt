// Short integers: one to nineteen decimal digits with a quiet byte or the end behind, of a value that the width holds. Typed integers are read by them without the
// general reader, which stays their definition: proofs/ShortIntegers shows that it reads the same number.
ghost use Rattle.std.specs.Prelude.{◌≡◌};
ghost use Rattle.plain_numbers.specs.inner.Shorts.{digits_of, ends_short, short_of};

use integers::width::highest;
use quiet::bytes::is_quiet;
use text::bytes::peek;

// Nineteen digits fit 64 bits.
const MOST: usize = 19;

// How many digits, and their value.
#[derive(Clone, Copy)]
pub struct Digits {
    pub len: usize,
    pub value: u64,
}

// The value of a short integer and its length; or none stands there.
#[derive(Clone, Copy)]
pub enum Short {
    Value(u64, usize),
    Other,
}

// The digits at the front of a part, at most nineteen.
fn digits_of(s: &[u8]) -> Digits
    ensures { result ≡ digits_of s.now }
{
    let mut value: u64 = 0;
    for i in 0..MOST {
        if s.len() <= i {
            return Digits { len: i, value };
        }
        let c = s[i];
        if c < b'0' {
            return Digits { len: i, value };
        }
        if b'9' < c {
            return Digits { len: i, value };
        }
        let d = c - b'0';
        let product = value * 10;
        value = product + d as u64;
    }
    Digits { len: MOST, value }
}

// A short integer may end before it: a quiet byte, or 0, which also stands past the end.
fn ends_short(byte: u8) -> bool
    ensures { result ≡ ends_short byte }
{
    if byte == 0 {
        return true;
    }
    is_quiet(byte)
}

// The short integer at the front of a part, in the width of a number.
pub fn short_integer(s: &[u8], code: u8) -> Short
    ensures { result ≡ short_of code s.now }
{
    let d = digits_of(s);
    let len = d.len;
    if len == 0 {
        return Short::Other;
    }
    if !ends_short(peek(s, len)) {
        return Short::Other;
    }
    if highest(code) < d.value {
        return Short::Other;
    }
    Short::Value(d.value, len)
}
