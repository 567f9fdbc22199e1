// The token of a part behind its gap.
ghost use Rattle.std.specs.Prelude.{◌≡◌, ◌<◌, length, drop};
ghost use Rattle.tokens.specs.Token.{token_of};
ghost use Rattle.tokens.specs.Lexemes.{lexeme_of};
ghost use Rattle.tokens.specs.Ron.{lexeme_behind, answer_of, ron_token};

use crate::lexeme::{Lexeme, lexeme_of};
use crate::token::token_at;
use comments::{Gap, skip_gap};
use text::Refusal;
use text::refusal::placed_behind;

// What stands next in a text.
#[derive(Clone, Copy)]
pub enum Following {
    // How many bytes stand in front of it, and the lexeme.
    Token(usize, Lexeme),
    End,
    Refused(Refusal),
}

// The lexeme behind g bytes.
fn behind_gap(s: &[u8], g: usize) -> Following
    requires { g < length s.now }
    ensures { answer_of result ≡ lexeme_behind g (lexeme_of (token_of (drop g s.now))) }
{
    let found = lexeme_of(token_at(&s[g..]));
    match found {
        Ok(l) => Following::Token(g, l),
        Err(refusal) => Following::Refused(placed_behind(refusal, g)),
    }
}

// A line comment that is not closed ends the text as its end does.
pub fn next_token(s: &[u8]) -> Following
    ensures { answer_of result ≡ ron_token s.now }
{
    let gap = skip_gap(s);
    match gap {
        Gap::Clear(g) => {
            if g < s.len() {
                return behind_gap(s, g);
            }
            Following::End
        }
        Gap::InLine(_) => Following::End,
        Gap::Refused(refusal) => Following::Refused(refusal),
    }
}
