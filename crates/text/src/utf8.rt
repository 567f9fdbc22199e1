// UTF-8 (RFC 3629): the first bad sequence of a text, code points, and encoding.
ghost use Rattle.std.specs.Prelude.{◌≡◌, ◌+◌, ◌<◌, ◌≤◌, ◌++◌, length, drop};
ghost use Rattle.text.specs.Utf8.{second_byte, behind_three, behind_four, width_of, char_len, utf8_of, code_of4, code_of, scalar, encoded_len};
ghost use Rattle.text.specs.Utf8.{encode_answer, encoded_into};
ghost use Rattle.text.specs.Utf8.{encode as bytes_of};

use crate::ascii;
use crate::bytes::peek;
use crate::classes::is_within;

// Why a code point is not encoded.
#[derive(Clone, Copy)]
pub enum EncodeError {
    NotScalar,
    NoRoom,
}

// The second byte of a character of three or four bytes, by its first.
pub fn is_second(a: u8, b: u8) -> bool
    ensures { result ≡ second_byte a b }
{
    if a == 0xE0 {
        return is_within(0xA0, 0xBF, b);
    }
    if a == 0xED {
        return is_within(0x80, 0x9F, b);
    }
    if a == 0xF0 {
        return is_within(0x90, 0xBF, b);
    }
    if a == 0xF4 {
        return is_within(0x80, 0x8F, b);
    }
    is_within(0x80, 0xBF, b)
}

// What stands behind the first byte of a character of three bytes.
fn three(a: u8, b: u8, c: u8) -> bool
    ensures { result ≡ behind_three a b c }
{
    if is_second(a, b) {
        return is_within(0x80, 0xBF, c);
    }
    false
}

// What stands behind the first byte of a character of four bytes.
fn four(a: u8, b: u8, c: u8, d: u8) -> bool
    ensures { result ≡ behind_four a b c d }
{
    if three(a, b, c) {
        return is_within(0x80, 0xBF, d);
    }
    false
}

// The width of the character that four bytes begin with, or 0.
fn width(a: u8, b: u8, c: u8, d: u8) -> usize
    ensures { result ≡ width_of a b c d }
{
    if a <= 0x7F {
        return 1;
    }
    if is_within(0xC2, 0xDF, a) {
        if is_within(0x80, 0xBF, b) {
            return 2;
        }
        return 0;
    }
    if is_within(0xE0, 0xEF, a) {
        if three(a, b, c) {
            return 3;
        }
        return 0;
    }
    if is_within(0xF0, 0xF4, a) {
        if four(a, b, c, d) {
            return 4;
        }
    }
    0
}

// The width of the character at the front of s, or 0 where there is none.
pub fn char_len(s: &[u8]) -> usize
    ensures { result ≡ char_len s.now }
{
    if s.len() == 0 {
        return 0;
    }
    let a = s[0];
    if a < 0x80 {
        return 1;
    }
    width(a, peek(s, 1), peek(s, 2), peek(s, 3))
}

// The place of the first byte of the first bad sequence; runs of ASCII are passed eight bytes at a time.
pub fn first_bad(s: &[u8]) -> Option<usize>
    ensures { result ≡ utf8_of s.now }
{
    let mut at = ascii::run8(s, 0);
    while at < s.len() {
        let n = char_len(&s[at..]);
        if n == 0 {
            return Some(at);
        }
        at = ascii::run8(s, at + n);
    }
    None
}

// The code point of a character's four bytes.
fn code(a: u8, b: u8, c: u8, d: u8) -> u32
    ensures { result ≡ code_of4 a b c d }
{
    if a < 0x80 {
        return a as u32;
    }
    if a < 0xE0 {
        return (a % 32) as u32 * 64 + (b % 64) as u32;
    }
    if a < 0xF0 {
        return (a % 16) as u32 * 4096 + (b % 64) as u32 * 64 + (c % 64) as u32;
    }
    (a % 8) as u32 * 262144 + (b % 64) as u32 * 4096 + (c % 64) as u32 * 64 + (d % 64) as u32
}

// The code point of the character at the front of s.
pub fn code_point(s: &[u8]) -> u32
    ensures { result ≡ code_of s.now }
{
    code(peek(s, 0), peek(s, 1), peek(s, 2), peek(s, 3))
}

// A code point, and no surrogate.
pub fn is_scalar(c: u32) -> bool
    ensures { result ≡ scalar c }
{
    if c < 0xD800 {
        return true;
    }
    if 0xE000 <= c {
        return c <= 0x10FFFF;
    }
    false
}

// How many bytes a scalar value is encoded in.
pub fn encoded_len(c: u32) -> usize
    ensures { result ≡ encoded_len c }
{
    if c < 0x80 {
        return 1;
    }
    if c < 0x800 {
        return 2;
    }
    if c < 0x10000 {
        return 3;
    }
    4
}

// The bytes of a scalar value, at the front of out; how many they are, or why none was written.
pub fn encode(c: u32, out: &mut [u8]) -> Result<usize, EncodeError>
    ensures { (result ≡ encode_answer c (length out.old)) × (out.new ≡ encoded_into c out.old) }
{
    if !is_scalar(c) {
        return Err(EncodeError::NotScalar);
    }
    let n = encoded_len(c);
    if out.len() < n {
        return Err(EncodeError::NoRoom);
    }
    put(c, out);
    Ok(n)
}

// The same where it fits.
fn put(c: u32, out: &mut [u8])
    requires { (c ≤ 0x10FFFF) × (encoded_len c ≤ length out.old) }
    ensures { out.new ≡ bytes_of c ++ drop (encoded_len c) out.old }
{
    if c < 0x80 {
        out[0] = c as u8;
        return;
    }
    if c < 0x800 {
        out[0] = (0xC0 + c / 64) as u8;
        out[1] = (0x80 + c % 64) as u8;
        return;
    }
    if c < 0x10000 {
        out[0] = (0xE0 + c / 4096) as u8;
        out[1] = (0x80 + c / 64 % 64) as u8;
        out[2] = (0x80 + c % 64) as u8;
        return;
    }
    out[0] = (0xF0 + c / 262144) as u8;
    out[1] = (0x80 + c / 4096 % 64) as u8;
    out[2] = (0x80 + c / 64 % 64) as u8;
    out[3] = (0x80 + c % 64) as u8;
}
