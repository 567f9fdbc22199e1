// Chars and byte literals, read as the crate reads them: by a cursor that goes over the part from its front.
//
// A backslash and what is above U+007F are told by the byte and not by the code point: over bytes that are no UTF-8 the two differ.
ghost use Rattle.std.specs.Prelude.{◌≡◌, drop, Err};
ghost use Rattle.text.specs.Refusals.{expected_byte_literal};
ghost use Rattle.escapes.specs.Escapes.{escape_of};
ghost use Rattle.escapes.specs.declared.answers.Mode.TheVariants.{Char, Bytes};
ghost use Rattle.strings.specs.Chars.{char_ends, by_char_escape, char_of, byte_ends, by_byte_escape, byte_of};

use cursor::{Escaped, ParserCursor};
use escapes::{Mode, in_byte_literal};
use text::Refusal;
use text::bytes::peek;
use text::utf8::char_len;

// Behind the character a closing quote has to stand.
fn char_ends(s: &[u8], cursor: ParserCursor, code: u32) -> Result<(usize, u32), Refusal>
    ensures { result ≡ char_ends s.now cursor.cursor code }
{
    let at = cursor.cursor;
    let behind = cursor.expect_char(s, b'\'', Refusal::expected_char(at))?;
    Ok((behind.cursor, code))
}

// The escape behind `'\`.
fn escaped_char(s: &[u8], cursor: ParserCursor) -> Result<(usize, u32), Refusal>
    requires { cursor.cursor ≡ 2 }
    ensures { result ≡ by_char_escape s.now (escape_of Char (drop 2 s.now)) }
{
    let escaped = cursor.parse_escape(s, Mode::Char);
    match escaped {
        Escaped::Ascii(b, behind) => char_ends(s, behind, b as u32),
        Escaped::Utf8(c, behind) => char_ends(s, behind, c),
        Escaped::Refused(refusal) => Err(refusal),
    }
}

// The char at the front of a part: how many bytes it takes, and its code point; 14 without its quotes, 6 where the text ends behind the first.
pub fn char_literal(s: &[u8]) -> Result<(usize, u32), Refusal>
    ensures { result ≡ char_of s.now }
{
    let inside = ParserCursor::at(0).expect_char(s, b'\'', Refusal::expected_char(0))?;
    let mark = inside.consume_char(s, b'\\');
    if mark.found {
        let behind = mark.cursor;
        return escaped_char(s, behind);
    }
    let (code, behind) = inside.next_char(s)?;
    char_ends(s, behind, code)
}

// 15 at a place.
fn no_byte(place: usize) -> Result<(usize, u8), Refusal>
    ensures { result ≡ Err (expected_byte_literal place) }
{
    Err(Refusal::expected_byte_literal(place))
}

// Behind the byte a closing quote has to stand.
fn byte_ends(s: &[u8], cursor: ParserCursor, byte: u8) -> Result<(usize, u8), Refusal>
    ensures { result ≡ byte_ends s.now cursor.cursor byte }
{
    let at = cursor.cursor;
    let behind = cursor.expect_char(s, b'\'', Refusal::expected_byte_literal(at))?;
    Ok((behind.cursor, byte))
}

// The escape behind `b'\`; `\u` is refused behind its `}`.
fn escaped_byte(s: &[u8], cursor: ParserCursor) -> Result<(usize, u8), Refusal>
    requires { cursor.cursor ≡ 3 }
    ensures { result ≡ by_byte_escape s.now (escape_of Bytes (drop 3 s.now)) }
{
    let escaped = cursor.parse_escape(s, Mode::Bytes);
    match escaped {
        Escaped::Ascii(b, behind) => byte_ends(s, behind, b),
        Escaped::Utf8(_, behind) => Err(in_byte_literal(behind.cursor)),
        Escaped::Refused(refusal) => Err(refusal),
    }
}

// The byte literal at the front of a part: how many bytes it takes, and the byte; 15 without `b'` and its quote, or for a character above U+007F; 6 where
// the text ends behind the first quote.
pub fn byte_literal(s: &[u8]) -> Result<(usize, u8), Refusal>
    ensures { result ≡ byte_of s.now }
{
    let begun = ParserCursor::at(0).consume_char(s, b'b');
    if !begun.found {
        return no_byte(0);
    }
    let named = begun.cursor;
    let opened = named.consume_char(s, b'\'');
    if !opened.found {
        return no_byte(0);
    }
    let inside = opened.cursor;
    let mark = inside.consume_char(s, b'\\');
    if mark.found {
        let behind = mark.cursor;
        return escaped_byte(s, behind);
    }
    let at = inside.cursor;
    if 0x80 <= peek(s, at) {
        return no_byte(at + char_len(&s[at..]));
    }
    let (code, behind) = inside.next_char(s)?;
    byte_ends(s, behind, code as u8)
}
