// The pieces of a quoted string: a plain run, an escape, a line continuation, and the closing quote.
ghost use Rattle.std.specs.Prelude.{◌≡◌, ◌+◌, ◌<◌, ◌^◌, drop, length, ltb};
ghost use Rattle.escapes.specs.Escapes.{simple_of};
ghost use Rattle.strings.specs.Pieces.{simple_front, line_end, behind_backslash, piece_of, decoded_len};

use crate::runs::{count_blanks, find_end};
use escapes::{EscapeAnswer, Mode};
use text::Refusal;
use text::bytes::peek;
use text::refusal::placed_behind;

// What a piece that begins with a backslash decodes to: a line continuation to nothing.
#[derive(Clone, Copy)]
pub enum Decoded {
    Nothing,
    Ascii(u8),
    Utf8(u32),
}

// Each with its number of bytes.
#[derive(Clone, Copy)]
pub enum Piece {
    Quote,
    Plain(usize),
    Backslash(usize, Decoded),
    Refused(Refusal),
}

// The number of bytes that are decoded.
pub fn decoded_len(d: Decoded) -> usize
    ensures { result ≡ decoded_len d }
{
    match d {
        Decoded::Nothing => 0,
        Decoded::Ascii(_) => 1,
        Decoded::Utf8(c) => text::utf8::encoded_len(c),
    }
}

// LF or CRLF stands at the front.
fn is_line_end(s: &[u8]) -> bool
    ensures { result ≡ line_end s.now }
{
    let b = peek(s, 0);
    if b == b'\n' {
        return true;
    }
    if b == b'\r' {
        return peek(s, 1) == b'\n';
    }
    false
}

// s is the part from behind a backslash.
fn behind_backslash(m: Mode, s: &[u8]) -> Piece
    requires { length s.now + 1 < 2 ^ 64 }
    ensures { result ≡ behind_backslash m s.now }
{
    if is_line_end(s) {
        return Piece::Backslash(count_blanks(s) + 1, Decoded::Nothing);
    }
    match escapes::parse_escape(m, s) {
        EscapeAnswer::Ascii(b, n) => Piece::Backslash(n + 1, Decoded::Ascii(b)),
        EscapeAnswer::Utf8(c, n) => Piece::Backslash(n + 1, Decoded::Utf8(c)),
        EscapeAnswer::Refused(r) => Piece::Refused(placed_behind(r, 1)),
    }
}

// A quote, a backslash or one of the letters that stand for one byte behind a backslash; in two ranges, each of which compiles to the bits of one word.
fn is_simple(b: u8) -> bool
    ensures { result ≡ ltb (simple_of b) 256 }
{
    if b < 0x40 {
        if b == b'"' {
            return true;
        }
        if b == b'\'' {
            return true;
        }
        return b == b'0';
    }
    if b == b'n' {
        return true;
    }
    if b == b'\\' {
        return true;
    }
    if b == b't' {
        return true;
    }
    b == b'r'
}

// Whether such an escape of two bytes stands at a place.
pub fn simple_escape(s: &[u8], at: usize) -> bool
    requires { at < length s.now }
    ensures { result ≡ simple_front (drop at s.now) }
{
    if s[at] != b'\\' {
        return false;
    }
    if s.len() - at < 2 {
        return false;
    }
    is_simple(s[at + 1])
}

// The piece at the front of s.
pub fn next_piece(m: Mode, s: &[u8]) -> Piece
    requires { 0 < length s.now }
    ensures { result ≡ piece_of m s.now }
{
    if s[0] == b'"' {
        return Piece::Quote;
    }
    if s[0] == b'\\' {
        return behind_backslash(m, &s[1..]);
    }
    Piece::Plain(find_end(s))
}
