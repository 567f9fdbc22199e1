// Classes of characters, after the crate's functions of the same names.
ghost use Rattle.std.specs.Prelude.{◌≡◌, ◌≤◌};
ghost use Rattle.xid.specs.Table.{table};
ghost use Rattle.text.specs.Classes.{within, blank_width, digit, letter, float_char, ascii_first, ascii_next, ascii_raw, ident_first, ident_next};
ghost use Rattle.text.specs.Classes.{ident_raw, continuation_blank};

use xid::search::{is_xid_continue, is_xid_start};

// One of lo to hi.
pub fn is_within(lo: u8, hi: u8, b: u8) -> bool
    ensures { result ≡ within lo hi b }
{
    (lo..=hi).contains(&b)
}

// How many of three bytes in a row are a whitespace character: 0 where they begin with none.
pub fn blank_width(a: u8, b: u8, c: u8) -> usize
    ensures { result ≡ blank_width a b c }
{
    if a < 0x80 {
        if a == 0x20 {
            return 1;
        }
        if a < 0x09 {
            return 0;
        }
        if a <= 0x0d {
            return 1;
        }
        return 0;
    }
    wide_blank_width(a, b, c)
}

// The same for a first byte above U+007F.
fn wide_blank_width(a: u8, b: u8, c: u8) -> usize
    requires { 0x80 ≤ a }
    ensures { result ≡ blank_width a b c }
{
    if a == 0xc2 {
        if b == 0x85 {
            return 2;
        }
        return 0;
    }
    if a != 0xe2 {
        return 0;
    }
    if b != 0x80 {
        return 0;
    }
    if is_within(0x8e, 0x8f, c) {
        return 3;
    }
    if is_within(0xa8, 0xa9, c) {
        return 3;
    }
    0
}

// In base ten.
pub fn is_digit(b: u8) -> bool
    ensures { result ≡ digit b }
{
    is_within(b'0', b'9', b)
}

// What the run of a float is made of, whatever its form.
pub fn is_float_char(b: u8) -> bool
    ensures { result ≡ float_char b }
{
    if is_digit(b) {
        return true;
    }
    if b == b'e' {
        return true;
    }
    if b == b'E' {
        return true;
    }
    if b == b'.' {
        return true;
    }
    if b == b'+' {
        return true;
    }
    if b == b'-' {
        return true;
    }
    if b == b'_' {
        return true;
    }
    false
}

fn is_letter(c: u32) -> bool
    ensures { result ≡ letter c }
{
    (0x41..=0x5a).contains(&c) || (0x61..=0x7a).contains(&c)
}

// A name's first character, up to U+007F.
pub fn is_ascii_first(c: u32) -> bool
    ensures { result ≡ ascii_first c }
{
    if is_letter(c) {
        return true;
    }
    c == 0x5f
}

// A name's next characters, up to U+007F.
pub fn is_ascii_next(c: u32) -> bool
    ensures { result ≡ ascii_next c }
{
    if is_letter(c) {
        return true;
    }
    if (0x30..=0x39).contains(&c) {
        return true;
    }
    c == 0x5f
}

// A raw name's characters, up to U+007F.
pub fn is_ascii_raw(c: u32) -> bool
    ensures { result ≡ ascii_raw c }
{
    if c == 0x2e {
        return true;
    }
    if c == 0x2b {
        return true;
    }
    if c == 0x2d {
        return true;
    }
    is_ascii_next(c)
}

// A name's first character, by its code point. The table is lent: whoever asks of many characters builds it once.
pub fn is_ident_first_char(t: &[u32; 3234], c: u32) -> bool
    requires { t.now ≡ table }
    ensures { result ≡ ident_first c }
{
    if c < 0x80 {
        return is_ascii_first(c);
    }
    is_xid_start(t, c)
}

// A name's next characters.
pub fn is_ident_next_char(t: &[u32; 3234], c: u32) -> bool
    requires { t.now ≡ table }
    ensures { result ≡ ident_next c }
{
    if c < 0x80 {
        return is_ascii_next(c);
    }
    is_xid_continue(t, c)
}

// A raw name's characters.
pub fn is_ident_raw_char(t: &[u32; 3234], c: u32) -> bool
    requires { t.now ≡ table }
    ensures { result ≡ ident_raw c }
{
    if c < 0x80 {
        return is_ascii_raw(c);
    }
    is_xid_continue(t, c)
}

// What a backslash at a line's end passes over.
pub fn is_string_continuation_whitespace(b: u8) -> bool
    ensures { result ≡ continuation_blank b }
{
    if b == b' ' {
        return true;
    }
    if b == b'\t' {
        return true;
    }
    if b == b'\n' {
        return true;
    }
    if b == b'\r' {
        return true;
    }
    false
}
