// Where a comment or a string that is not closed begins.
ghost use Rattle.std.specs.Prelude.{◌≡◌, drop};
ghost use Rattle.opened.specs.Begun.{begun_from, read_begun};

use crate::front::{Front, front_of};
use crate::reach::reached;
use text::Refusal;

// What is open, and the byte at which it begins.
#[derive(Clone, Copy)]
pub enum Begun {
    Nothing,
    // The opening mark of a block comment that is not closed.
    Comment(usize),
    // The quote of a string that is not closed.
    Quote(usize),
    // An opening bracket.
    Bracket(usize),
    // The first field of a name: where its entry begins, where the name does (behind `r#`), and where both end.
    Field(usize, usize, usize),
}

// The first thing from a place on that is not closed.
fn begun_from(text: &[u8], from: usize) -> Begun
    ensures { result ≡ begun_from (drop from text.now) 0 from }
{
    let mut at = from;
    while at < text.len() {
        let found = front_of(&text[at..]);
        match found {
            Front::Passes(n) => {
                at += n;
            }
            Front::OpenComment => {
                return Begun::Comment(at);
            }
            Front::OpenString(n) => {
                let quote = at + n;
                return Begun::Quote(quote);
            }
        }
    }
    Begun::Nothing
}

// What a text is refused for with 4 or 17.
pub fn read_begun(text: &[u8], number: u8) -> Begun
    ensures { result ≡ read_begun text.now number }
{
    if number == Refusal::UNCLOSED_BLOCK_COMMENT {
        return begun_from(text, reached(text));
    }
    if number == Refusal::EXPECTED_STRING_END {
        return begun_from(text, reached(text));
    }
    Begun::Nothing
}
