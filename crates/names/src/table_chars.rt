// Characters at the front of a part, by the table, which is lent.
ghost use Rattle.std.specs.Prelude.{◌≡◌};
ghost use Rattle.names.specs.Characters.{ident_char, char_if, chars};
ghost use Rattle.xid.specs.Table.{table};

use crate::Class;
use crate::characters::near_if;
use text::{classes, utf8};

fn is_ident_char(t: &[u32; 3234], class: Class, c: u32) -> bool
    requires { t.now ≡ table }
    ensures { result ≡ ident_char class c }
{
    match class {
        Class::First => classes::is_ident_first_char(t, c),
        Class::Next => classes::is_ident_next_char(t, c),
        Class::Raw => classes::is_ident_raw_char(t, c),
    }
}

// The width of the character at the front where it is of the class, else 0; near ones are told first.
pub fn char_if(t: &[u32; 3234], class: Class, s: &[u8]) -> usize
    requires { t.now ≡ table }
    ensures { result ≡ char_if (ident_char class) s.now }
{
    let n = near_if(class, s);
    if n != 0 {
        return n;
    }
    if is_ident_char(t, class, utf8::code_point(s)) {
        return utf8::char_len(s);
    }
    0
}

// How many bytes from the front are characters of the class.
pub fn chars_len(t: &[u32; 3234], s: &[u8], class: Class) -> usize
    requires { t.now ≡ table }
    ensures { result ≡ chars (ident_char class) s.now }
{
    let mut i = 0;
    while i < s.len() {
        let n = char_if(t, class, &s[i..]);
        if n == 0 {
            return i;
        }
        i += n;
    }
    i
}
