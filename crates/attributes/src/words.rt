// The words of an attribute.
ghost use Rattle.std.specs.Prelude.{◌≡◌};
ghost use Rattle.attributes.specs.Words.{keyword_of, keyword_at};

use integers::ident::{Found, check_ident, nothing};

// The word at a place, with the place behind it.
#[derive(Clone, Copy)]
pub enum Keyword {
    Enable(usize),
    // `type` or `schema`.
    Text(usize),
    NoKeyword,
}

// What a word says.
const ENABLE: u8 = 1;

const TEXT: u8 = 2;

// Which word the part begins with.
fn word_of(t: &[u8]) -> Found
    ensures { result ≡ keyword_of t.now }
{
    if check_ident(t, b"enable") {
        return Found {
            code: ENABLE,
            end: 6,
        };
    }
    if check_ident(t, b"type") {
        return Found { code: TEXT, end: 4 };
    }
    if check_ident(t, b"schema") {
        return Found { code: TEXT, end: 6 };
    }
    nothing()
}

// The word at a place.
pub fn keyword_at(s: &[u8], at: usize) -> Keyword
    ensures { result ≡ keyword_at s.now at }
{
    if s.len() <= at {
        return Keyword::NoKeyword;
    }
    let word = word_of(&s[at..]);
    if word.end == 0 {
        return Keyword::NoKeyword;
    }
    let behind = at + word.end;
    if word.code == ENABLE {
        return Keyword::Enable(behind);
    }
    Keyword::Text(behind)
}
