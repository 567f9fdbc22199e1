// `s CURSOR PRE LEN HEX`: a skip.
ghost use Rattle.std.specs.Prelude.{◌≡◌};
ghost use Rattle.lines.specs.Out.{put};
ghost use Rattle.cases.specs.Skips.{length_of, skip_line};

use sarridok::ParserCursor;
use words::{hex, number};

// A number, or the word `mark` for that of a line that is not closed.
fn length_of(word: &[u8]) -> Option<u64>
    ensures { result ≡ length_of word.now }
{
    if check::same(word, b"mark") {
        return Some(ParserCursor::WS_CURSOR_UNCLOSED_LINE as u64);
    }
    number::decimal_of(word)
}

// `bad` where the line is no case, else the cursor behind the gap, or the refusal.
pub fn answer(words: &[u8], text: &mut [u8], o: &mut [u8], at: usize) -> usize
    ensures { ((o.new, result) ≡ put (o.old, at) (skip_line words.now text.old).0)
        × (text.new ≡ (skip_line words.now text.old).1) }
{
    let Some(cursor) = number::decimal_of(words::word(words)) else {
        return show::bad(o, at);
    };
    let words = words::behind(words);
    let Some(pre) = number::decimal_of(words::word(words)) else {
        return show::bad(o, at);
    };
    let words = words::behind(words);
    let Some(len) = length_of(words::word(words)) else {
        return show::bad(o, at);
    };
    let Some(n) = hex::bytes(words::behind(words), text) else {
        return show::bad(o, at);
    };
    let from = ParserCursor {
        cursor: cursor as usize,
        pre_ws_cursor: pre as usize,
        last_ws_len: len as usize,
    };
    let skipped = sarridok::skip(lines::part(&text[..], 0, n), from);
    show::skip::skipped(o, at, skipped)
}
