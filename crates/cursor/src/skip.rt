// Whitespace and comments at the cursor.
ghost use Rattle.std.specs.Prelude.{◌≡◌, ◌-◌};
ghost use Rattle.cursor.specs.Skip.{cursor_fits, pre_of, skip_ws_of};

use crate::ParserCursor;
use comments::Gap;
use text::Refusal;
use text::judge::place_fits;
use text::refusal::placed_behind;

impl ParserCursor {
    // Its places are fit for the text, and its numbers agree.
    pub fn fits(self, text: &[u8]) -> bool
        ensures { result ≡ cursor_fits text.now self }
    {
        let at = self.cursor;
        let pre = self.pre_ws_cursor;
        if !place_fits(text, at) {
            return false;
        }
        if !place_fits(text, pre) {
            return false;
        }
        if at < pre {
            return false;
        }
        if self.last_ws_len == Self::WS_CURSOR_UNCLOSED_LINE {
            return true;
        }
        self.last_ws_len <= at
    }

    // Where whitespace that is apart from the last begins, and else where the last began.
    fn pre_ws(self) -> usize
        ensures { result ≡ pre_of self }
    {
        let at = self.cursor;
        let pre = self.pre_ws_cursor;
        let len = self.last_ws_len;
        if len == Self::WS_CURSOR_UNCLOSED_LINE {
            return pre;
        }
        if at <= pre {
            return pre;
        }
        if len < at - pre { at } else { pre }
    }

    // The cursor behind the whitespace and comments at it, or the refusal.
    pub fn skip_ws(self, text: &[u8]) -> Result<ParserCursor, Refusal>
        ensures { result ≡ skip_ws_of text.now self }
    {
        let at = self.cursor;
        let pre = self.pre_ws();
        if text.len() <= at {
            return Ok(ParserCursor {
                cursor: at,
                pre_ws_cursor: pre,
                last_ws_len: self.last_ws_len,
            });
        }
        let run = comments::skip_gap(&text[at..]);
        match run {
            Gap::Clear(n) => {
                let end = at + n;
                // A host's own cursor can have the whitespace begin behind the place.
                let len = end.saturating_sub(pre);
                Ok(ParserCursor {
                    cursor: end,
                    pre_ws_cursor: pre,
                    last_ws_len: len,
                })
            }
            Gap::InLine(n) => {
                let end = at + n;
                Ok(ParserCursor {
                    cursor: end,
                    pre_ws_cursor: pre,
                    last_ws_len: Self::WS_CURSOR_UNCLOSED_LINE,
                })
            }
            Gap::Refused(r) => Err(placed_behind(r, at)),
        }
    }
}
