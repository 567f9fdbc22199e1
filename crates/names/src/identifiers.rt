// Names and raw names at the front of a part.
ghost use Rattle.std.specs.Prelude.{◌≡◌, ◌≤◌, length};
ghost use Rattle.names.specs.Characters.{char_if, near};
ghost use Rattle.text.specs.Classes.{ident_first};
ghost use Rattle.xid.specs.Table.{table as rows};
ghost use Rattle.names.specs.Identifiers.{name_len, plain_of, raw_of, strict_of, skip_identifier_of, identifier_of};

use crate::characters::{is_wide_ahead, near_if, next_chars_while_len};
use crate::starts::{begins_raw, begins_string};
use crate::{Class, Identifier, table_chars};
use xid::table::table;

// The length of the name at the front, 0 where none begins: by the table, which is lent.
fn name_in(t: &[u32; 3234], s: &[u8]) -> usize
    requires { t.now ≡ rows }
    ensures { result ≡ name_len s.now }
{
    let n = table_chars::char_if(t, Class::First, s);
    if n == 0 {
        return 0;
    }
    let more = table_chars::chars_len(t, &s[n..], Class::Next);
    n + more
}

// The same where no near character begins it. This builds the table, once.
fn far_name_len(s: &[u8]) -> usize
    requires { char_if (near ident_first) s.now ≡ 0 }
    ensures { result ≡ name_len s.now }
{
    if !is_wide_ahead(s) {
        return 0;
    }
    let t = table();
    name_in(&t, s)
}

fn name_len(s: &[u8]) -> usize
    ensures { result ≡ name_len s.now }
{
    let n = near_if(Class::First, s);
    if n == 0 {
        return far_name_len(s);
    }
    let more = next_chars_while_len(&s[n..], Class::Next);
    n + more
}

fn plain(s: &[u8]) -> Identifier
    ensures { result ≡ plain_of s.now }
{
    let n = name_len(s);
    if n == 0 {
        return Identifier::Missing;
    }
    Identifier::Name(n)
}

// A part that begins with `r#`.
fn raw(s: &[u8]) -> Identifier
    requires { 2 ≤ length s.now }
    ensures { result ≡ raw_of s.now }
{
    let n = next_chars_while_len(&s[2..], Class::Raw);
    let end = 2 + n;
    if n == 0 {
        return Identifier::Missing;
    }
    Identifier::RawName(end)
}

// The name or raw name that a part begins with; what begins a string or a byte literal is none.
pub fn skip_identifier(s: &[u8]) -> Identifier
    ensures { result ≡ skip_identifier_of s.now }
{
    if begins_string(s) {
        return Identifier::Missing;
    }
    if begins_raw(s) {
        return raw(s);
    }
    plain(s)
}

// A name that would not go on as a raw name.
fn strict(s: &[u8]) -> Identifier
    ensures { result ≡ strict_of s.now }
{
    let n = name_len(s);
    let raw = next_chars_while_len(s, Class::Raw);
    if n == 0 {
        return Identifier::Missing;
    }
    if n < raw {
        return Identifier::Missing;
    }
    Identifier::Name(n)
}

// What the list of an attribute asks for, which tests for the end of the text itself.
pub fn identifier(s: &[u8]) -> Identifier
    ensures { result ≡ identifier_of s.now }
{
    if begins_string(s) {
        return Identifier::Missing;
    }
    if begins_raw(s) {
        return raw(s);
    }
    strict(s)
}
