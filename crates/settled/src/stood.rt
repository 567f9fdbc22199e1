// Where the reading of an attribute stands: asked only of one that is refused, so it reads it again, each part of it once more.
ghost use Rattle.std.specs.Prelude.{◌≡◌, drop};
ghost use Rattle.attributes.specs.List.{list_of};
ghost use Rattle.attributes.specs.Words.{keyword_at};
ghost use Rattle.strings.specs.Strings.{string_of};
ghost use Rattle.settled.specs.Stood.{listed_stood, string_stood, enable_stood, value_stood, keyword_stood, attribute_stood};

use crate::stood_list::list_stood;
use crate::stood_steps::{behind_stood, bracket_stood, sign_stood};
use attributes::list::extension_list;
use attributes::steps;
use attributes::words::{Keyword, keyword_at};

// By the list that begins at a place.
fn listed_stood(s: &[u8], start: usize) -> usize
    ensures { result ≡ listed_stood s.now start (list_of s.now start) }
{
    let listed = extension_list(s, start);
    match listed {
        Ok((end, _)) => bracket_stood(s, end),
        Err(_) => list_stood(s, start),
    }
}

// Behind `enable`.
fn enable_stood(s: &[u8], at: usize) -> usize
    ensures { result ≡ enable_stood s.now at }
{
    let opened = steps::sign(s, b'(', at);
    match opened {
        Ok(start) => listed_stood(s, start),
        Err(_) => sign_stood(s, b'(', at),
    }
}

// By the string at a place.
fn string_stood(s: &[u8], at: usize) -> usize
    ensures { result ≡ string_stood s.now at (string_of (drop at s.now)) }
{
    if s.len() <= at {
        return at;
    }
    let found = strings::string(&s[at..]);
    match found {
        Ok(l) => {
            let end = at + l.len;
            behind_stood(s, end)
        }
        Err(r) => {
            let place = at + r.place;
            place
        }
    }
}

// Behind `type` or `schema`.
fn value_stood(s: &[u8], at: usize) -> usize
    ensures { result ≡ value_stood s.now at }
{
    let given = steps::sign(s, b'=', at);
    match given {
        Ok(start) => string_stood(s, start),
        Err(_) => sign_stood(s, b'=', at),
    }
}

// Behind `#`, `!` and `[`.
fn keyword_stood(s: &[u8], at: usize) -> usize
    ensures { result ≡ keyword_stood s.now at (keyword_at s.now at) }
{
    let found = keyword_at(s, at);
    match found {
        Keyword::Enable(behind) => enable_stood(s, behind),
        Keyword::Text(behind) => value_stood(s, behind),
        Keyword::NoKeyword => at,
    }
}

// In the attribute that s begins with.
pub fn attribute_stood(s: &[u8]) -> usize
    ensures { result ≡ attribute_stood s.now }
{
    let hash = steps::consume(s, b'#', Ok((true, 0)));
    let bang = steps::consume(s, b'!', hash);
    let bracket = steps::consume(s, b'[', bang);
    match bracket {
        Ok((all, at)) => {
            if all {
                return keyword_stood(s, at);
            }
            at
        }
        Err(r) => r.place,
    }
}
