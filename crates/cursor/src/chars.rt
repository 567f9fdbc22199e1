// One character at the cursor.
ghost use Rattle.std.specs.Prelude.{◌≡◌, ◌<◌, length};
ghost use Rattle.cursor.specs.inner.Chars.{next_of, consumed_of, expected_of};

use crate::ParserCursor;
use text::Refusal;
use text::utf8::{char_len, code_point};

// Whether the character was there, and the cursor, which moves only then.
#[derive(Clone, Copy)]
pub struct Consumed {
    pub found: bool,
    pub cursor: ParserCursor,
}

impl ParserCursor {
    // The next character, by its code point, and the cursor behind it; 6 at the end of the text.
    pub fn next_char(self, text: &[u8]) -> Result<(u32, ParserCursor), Refusal>
        ensures { result ≡ next_of text.now self }
    {
        let at = self.cursor;
        if text.len() <= at {
            return Err(Refusal::eof(at));
        }
        let first = text[at];
        if first < 0x80 {
            let code = first as u32;
            return Ok((code, self.advance_bytes(1)));
        }
        self.wide_char(text)
    }

    // The same where the text goes on, apart from ASCII, so that the way above stays short.
    fn wide_char(self, text: &[u8]) -> Result<(u32, ParserCursor), Refusal>
        requires { self.cursor < length text.now }
        ensures { result ≡ next_of text.now self }
    {
        let at = self.cursor;
        let part = &text[at..];
        let bytes = char_len(part);
        Ok((code_point(part), self.advance_bytes(bytes)))
    }

    // An ASCII character, taken where it stands.
    pub fn consume_char(self, text: &[u8], c: u8) -> Consumed
        ensures { result ≡ consumed_of text.now self c }
    {
        let at = self.cursor;
        if text.len() <= at {
            return Consumed {
                found: false,
                cursor: self,
            };
        }
        if text[at] == c {
            return Consumed {
                found: true,
                cursor: self.advance_bytes(1),
            };
        }
        Consumed {
            found: false,
            cursor: self,
        }
    }

    // The same, refused where it does not stand: the cursor behind it, or the refusal that is given.
    pub fn expect_char(self, text: &[u8], c: u8, refusal: Refusal) -> Result<ParserCursor, Refusal>
        ensures { result ≡ expected_of text.now self c refusal }
    {
        let got = self.consume_char(text, c);
        if got.found {
            let moved = got.cursor;
            return Ok(moved);
        }
        Err(refusal)
    }
}
