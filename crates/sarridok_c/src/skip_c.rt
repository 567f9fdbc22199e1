// `skip`: the cursor's place; its two other numbers go into lent ones.
ghost use Rattle.std.specs.Prelude.{◌≡◌};
ghost use Rattle.cursor.specs.Cursor.{cursor as cursorOf};
ghost use Rattle.sarridok.specs.Skip.{skip_of};
ghost use Rattle.sarridok_c.specs.Packed.{packed, lent_after};
ghost use Rattle.sarridok_c.specs.Words.{cursor_word, pre_of, length_of};

use crate::packing::{pair, refused};
use sarridok::ParserCursor;
use text::Refusal;

fn word(answer: Result<ParserCursor, Refusal>, pre: &mut u64, len: &mut u64) -> u64
    ensures { (result ≡ packed cursor_word answer) × (pre.new ≡ lent_after pre_of answer pre.old)
        × (len.new ≡ lent_after length_of answer len.old) }
{
    match answer {
        Ok(c) => {
            *pre = c.pre_ws_cursor as u64;
            *len = c.last_ws_len as u64;
            pair(0, c.cursor as u64)
        }
        Err(refusal) => refused(refusal),
    }
}

// Moves a cursor of three numbers behind the whitespace and comments at it. Its answer is the place; the two others are written.
pub fn sarridok_skip(
    text: &[u8],
    cursor: usize,
    pre_ws_cursor: usize,
    last_ws_len: usize,
    new_pre_ws_cursor: &mut u64,
    new_last_ws_len: &mut u64,
) -> u64
    ensures answer { result ≡ packed cursor_word (skip_of text.now (cursorOf cursor pre_ws_cursor last_ws_len)) }
    ensures pre { new_pre_ws_cursor.new ≡
        lent_after pre_of (skip_of text.now (cursorOf cursor pre_ws_cursor last_ws_len)) new_pre_ws_cursor.old }
    ensures len { new_last_ws_len.new ≡
        lent_after length_of (skip_of text.now (cursorOf cursor pre_ws_cursor last_ws_len)) new_last_ws_len.old }
{
    let c = ParserCursor {
        cursor,
        pre_ws_cursor,
        last_ws_len,
    };
    word(sarridok::skip(text, c), new_pre_ws_cursor, new_last_ws_len)
}
