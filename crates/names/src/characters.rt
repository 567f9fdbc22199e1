// Characters at the front of a part, by code point and width. An ASCII byte is tested first, then the usual letters; what is neither is left to `table_chars`.
ghost use Rattle.std.specs.Prelude.{◌≡◌};
ghost use Rattle.names.specs.Characters.{ascii_char, ident_char, char_if, chars, near, usual_pair, wide_ahead};

use crate::{Class, table_chars};
use text::{classes, utf8};
use xid::table::table;
use xid::usual::is_usual;

// A character up to U+007F is of the class.
pub fn is_ascii_char(class: Class, c: u32) -> bool
    ensures { result ≡ ascii_char class c }
{
    match class {
        Class::First => classes::is_ascii_first(c),
        Class::Next => classes::is_ascii_next(c),
        Class::Raw => classes::is_ascii_raw(c),
    }
}

// A character is of the class, and that is told without the table.
fn is_near(class: Class, c: u32) -> bool
    ensures { result ≡ near (ident_char class) c }
{
    if c < 0x80 {
        return is_ascii_char(class, c);
    }
    is_usual(c)
}

// A usual letter of two bytes, as most accented ones are, told by its bytes.
fn is_usual_pair(a: u8, b: u8) -> bool
    ensures { result ≡ usual_pair a b }
{
    if a < 0xc3 {
        return false;
    }
    if 0xd2 < a {
        return false;
    }
    if b < 0x80 {
        return false;
    }
    if 0xbf < b {
        return false;
    }
    is_usual((a % 32) as u32 * 64 + (b % 64) as u32)
}

fn wide_near_if(class: Class, s: &[u8]) -> usize
    ensures { result ≡ char_if (near (ident_char class)) s.now }
{
    if is_near(class, utf8::code_point(s)) {
        return utf8::char_len(s);
    }
    0
}

// The width of such a character at the front, 0 where none stands.
pub fn near_if(class: Class, s: &[u8]) -> usize
    ensures { result ≡ char_if (near (ident_char class)) s.now }
{
    if s.len() == 0 {
        return 0;
    }
    let a = s[0];
    if a < 0x80 {
        if is_ascii_char(class, a as u32) {
            return 1;
        }
        return 0;
    }
    if 2 <= s.len() {
        if is_usual_pair(a, s[1]) {
            return 2;
        }
    }
    wide_near_if(class, s)
}

// How many bytes from the front are such characters.
fn near_len(s: &[u8], class: Class) -> usize
    ensures { result ≡ chars (near (ident_char class)) s.now }
{
    let mut i = 0;
    while i < s.len() {
        let a = s[i];
        if a < 0x80 {
            if !is_ascii_char(class, a as u32) {
                return i;
            }
            i += 1;
        } else {
            let n = near_if(class, &s[i..]);
            if n == 0 {
                return i;
            }
            i += n;
        }
    }
    i
}

// A character above U+007F stands at the front.
pub fn is_wide_ahead(s: &[u8]) -> bool
    ensures { result ≡ wide_ahead s.now }
{
    if s.len() == 0 {
        return false;
    }
    0x7f < s[0]
}

// How many bytes are characters of the class, where no near one stands at the front. This builds the table, once.
fn far_len(s: &[u8], class: Class) -> usize
    requires { char_if (near (ident_char class)) s.now ≡ 0 }
    ensures { result ≡ chars (ident_char class) s.now }
{
    if !is_wide_ahead(s) {
        return 0;
    }
    let t = table();
    table_chars::chars_len(&t, s, class)
}

// How many bytes from the front are characters of the class.
pub fn next_chars_while_len(s: &[u8], class: Class) -> usize
    ensures { result ≡ chars (ident_char class) s.now }
{
    let n = near_len(s, class);
    let more = far_len(&s[n..], class);
    n + more
}
