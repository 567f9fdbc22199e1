// One escape at the cursor, which stands behind its `\`.
ghost use Rattle.std.specs.Prelude.{◌≡◌};
ghost use Rattle.cursor.specs.inner.Escape.{escaped_of};

use crate::ParserCursor;
use escapes::{EscapeAnswer, Mode};
use text::Refusal;
use text::refusal::placed_behind;

// A byte or a scalar value, as in `escapes::EscapeAnswer`, and the cursor behind the escape; or the refusal.
#[derive(Clone, Copy)]
pub enum Escaped {
    Ascii(u8, ParserCursor),
    Utf8(u32, ParserCursor),
    Refused(Refusal),
}

impl ParserCursor {
    // The escape behind the `\`, read over the part in front of the cursor; a refusal is placed in the whole text.
    pub fn parse_escape(self, text: &[u8], mode: Mode) -> Escaped
        ensures { result ≡ escaped_of text.now self mode }
    {
        let at = self.cursor;
        if text.len() <= at {
            return Escaped::Refused(Refusal::eof(at));
        }
        let answer = escapes::parse_escape(mode, &text[at..]);
        match answer {
            EscapeAnswer::Ascii(b, n) => Escaped::Ascii(b, self.advance_bytes(n)),
            EscapeAnswer::Utf8(c, n) => Escaped::Utf8(c, self.advance_bytes(n)),
            EscapeAnswer::Refused(r) => Escaped::Refused(placed_behind(r, at)),
        }
    }
}
