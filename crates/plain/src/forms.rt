// The plain token at the front of a part.
ghost use Rattle.std.specs.Prelude.{◌≡◌, ◌<◌, length};
ghost use Rattle.plain.specs.inner.Plain.{plain_of};

use crate::marks::mark;
use plain_names::plain::plain_name;
use plain_numbers::plain_number;
use plain_strings::plain::plain_string;
use rows::kinds;
use tokens::lexeme::Lexeme;

// Its length is 0 where none stands there; names come first, since their first byte takes one test.
pub fn plain(s: &[u8]) -> Lexeme
    requires { 0 < length s.now }
    ensures { result ≡ plain_of s.now }
{
    let name = plain_name(s);
    if 0 < name {
        return Lexeme {
            len: name,
            kind: kinds::NAME,
            detail: 0,
        };
    }
    let kind = mark(s[0]);
    if 0 < kind {
        return Lexeme {
            len: 1,
            kind,
            detail: 0,
        };
    }
    let quoted = plain_string(s);
    if 0 < quoted {
        let detail = quoted - 2;
        return Lexeme {
            len: quoted,
            kind: kinds::STRING,
            detail,
        };
    }
    plain_number(s)
}
