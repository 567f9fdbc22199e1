// The suffix of a width.
ghost use Rattle.std.specs.Prelude.{◌≡◌, length};
ghost use Rattle.integers.specs.Words.{ident_at};
ghost use Rattle.integers.specs.Width.{suffix_first, suffix_word, suffix_of};

use crate::ident::{Found, check_ident, nothing};
use text::bytes::peek;

// The suffix of a width stands at the front.
fn suffix_at(t: &[u8], code: u8) -> bool
    ensures { result ≡ ident_at (suffix_word code) t.now }
{
    if code == 1 {
        return check_ident(t, b"i8");
    }
    if code == 2 {
        return check_ident(t, b"i16");
    }
    if code == 3 {
        return check_ident(t, b"i32");
    }
    if code == 4 {
        return check_ident(t, b"i64");
    }
    if code == 5 {
        return check_ident(t, b"u8");
    }
    if code == 6 {
        return check_ident(t, b"u16");
    }
    if code == 7 {
        return check_ident(t, b"u32");
    }
    check_ident(t, b"u64")
}

// How many letters the suffix of a width has: i8 and u8 two, the others three.
fn suffix_len(code: u8) -> usize
    ensures { result ≡ length (suffix_word code) }
{
    if code == 1 {
        return 2;
    }
    if code == 5 {
        return 2;
    }
    3
}

// A suffix begins with it.
fn is_suffix_first(b: u8) -> bool
    ensures { result ≡ suffix_first b }
{
    if b == b'i' {
        return true;
    }
    b == b'u'
}

// The suffix at the front of the part.
pub fn suffix_of(t: &[u8]) -> Found
    ensures { result ≡ suffix_of t.now }
{
    if !is_suffix_first(peek(t, 0)) {
        return nothing();
    }
    let mut k: u8 = 1;
    // A loop that yields the width and is left by `break`, not a `for`: document 01 names the form.
    let found = loop {
        if 8 < k {
            break Found { code: 0, end: 0 };
        }
        if suffix_at(t, k) {
            let end = suffix_len(k);
            break Found { code: k, end };
        }
        k += 1;
    };
    found
}
