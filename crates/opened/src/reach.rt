// How far a text was read.
ghost use Rattle.std.specs.Prelude.{◌≡◌};
ghost use Rattle.opened.specs.Begun.{reached_of};

use tokens::following::{Following, next_token};

// The end of the last token before the refusal: a refused read leaves no tape, so the text is read once more.
pub fn reached(text: &[u8]) -> usize
    ensures { result ≡ reached_of text.now }
{
    let mut at: usize = 0;
    while at < text.len() {
        let found = next_token(&text[at..]);
        match found {
            Following::Token(g, l) => {
                let start = at + g;
                at = start + l.len;
            }
            Following::End => return at,
            Following::Refused(_) => return at,
        }
    }
    at
}
