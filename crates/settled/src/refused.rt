// Which refusals stay, however the text goes on.
ghost use Rattle.std.specs.Prelude.{Err, ◌&&◌, ◌≡◌, ◌-◌};
ghost use Rattle.arriving.specs.Owing.{tells_end};
ghost use Rattle.settled.specs.Settled.{behind_slash, by_lexeme, quoted_stays, ron_settles, shape_in, spoilt_for, stays_by};

use crate::bytes::stops_from;
use crate::nothing::starts_nothing;
use crate::stood::attribute_stood;
use comments::{Gap, skip_gap};
use text::Refusal;
use text::bytes::peek;
use tokens::lexeme::lexeme_of;
use tokens::shape::{Shape, shape_of};
use tokens::token::token_at;

// One of what stands in quotes, behind `from` bytes.
fn quoted_stays(p: &[u8], from: usize, refused: Refusal) -> bool
    ensures { result ≡ quoted_stays from p.now refused }
{
    if refused.place < from {
        return false;
    }
    stops_from(p, refused.place)
}

// One of a token of this shape.
fn stays_by(shape: Shape, p: &[u8], refused: Refusal) -> bool
    ensures { result ≡ stays_by shape p.now refused }
{
    match shape {
        Shape::Mark(_) => false,
        Shape::Attribute => {
            let stood = attribute_stood(p);
            stops_from(p, stood)
        }
        Shape::Str => quoted_stays(p, 1, refused),
        Shape::Char => quoted_stays(p, 1, refused),
        Shape::Byte => quoted_stays(p, 2, refused),
        Shape::ByteStr => quoted_stays(p, 2, refused),
        Shape::Number => stops_from(p, 0),
        Shape::Word => stops_from(p, 0),
    }
}

// One that says that the text has ended.
pub fn tells_end(refused: Refusal) -> bool
    ensures { result ≡ tells_end refused }
{
    if refused.number == Refusal::UNCLOSED_BLOCK_COMMENT {
        return true;
    }
    if refused.number == Refusal::EOF {
        return true;
    }
    if refused.number == Refusal::EXPECTED_STRING_END {
        return true;
    }
    false
}

// That of the token at the front.
fn stays(p: &[u8], refused: Refusal) -> bool
    ensures { result ≡ by_lexeme (Err refused) (stays_by (shape_in p.now) p.now) }
{
    if tells_end(refused) {
        return false;
    }
    let shape = shape_of(peek(p, 0), peek(p, 1), peek(p, 2));
    stays_by(shape, p, refused)
}

// The token at the front is refused, and its refusal stays. A character that starts nothing is looked for where the token is refused only.
fn is_spoilt(p: &[u8]) -> bool
    ensures { result ≡ spoilt_for p.now }
{
    let found = lexeme_of(token_at(p));
    match found {
        Ok(_) => false,
        Err(refused) => {
            if starts_nothing(p) {
                return true;
            }
            stays(p, refused)
        }
    }
}

// 5 behind a `/`, whose character has come whole.
fn is_behind_slash(s: &[u8], refused: Refusal) -> bool
    ensures { result ≡ behind_slash s.now refused }
{
    if refused.number != 5 {
        return false;
    }
    let last = refused.place.saturating_sub(1);
    if peek(s, last) == b'/' {
        return false;
    }
    true
}

// s is refused, and will be so however it goes on.
pub fn settles(s: &[u8]) -> bool
    ensures { result ≡ ron_settles s.now }
{
    let gap = skip_gap(s);
    match gap {
        Gap::Clear(g) => is_spoilt(&s[g..]),
        Gap::InLine(_) => false,
        Gap::Refused(refused) => is_behind_slash(s, refused),
    }
}
