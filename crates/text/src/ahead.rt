// Whether a name goes on with the character at the front of a part.
ghost use Rattle.std.specs.Prelude.{◌≡◌};
ghost use Rattle.text.specs.Ahead.{next_ahead};

use crate::classes::{is_ascii_next, is_ident_next_char};
use crate::utf8::{char_len, code_point};
use xid::table::table;
use xid::usual::is_usual;

// The same of any character, its first byte read or not. The table is built only for a character that is no usual one.
fn is_wide_next(s: &[u8]) -> bool
    ensures { result ≡ next_ahead s.now }
{
    let c = code_point(s);
    if is_usual(c) {
        return 0 < char_len(s);
    }
    let t = table();
    if is_ident_next_char(&t, c) {
        return 0 < char_len(s);
    }
    false
}

// An ASCII byte is told by itself.
pub fn is_next_ahead(s: &[u8]) -> bool
    ensures { result ≡ next_ahead s.now }
{
    if s.len() == 0 {
        return false;
    }
    let a = s[0];
    if a < 0x80 {
        return is_ascii_next(a as u32);
    }
    is_wide_next(s)
}
