// `C ENTRY COUNT BUFFER HEX N,N,..`: contents over any tape, and a buffer of so many bytes.
ghost use Rattle.std.specs.Prelude.{◌≡◌};
ghost use Rattle.lines.specs.Out.{put};
ghost use Rattle.cases.specs.Contents.{front_of, any_line};

use crate::contents::{self, Asked};
use words::{hex, list, number};

// What the first three words ask; none where the line is no case.
fn front(words: &[u8]) -> Option<Asked>
    ensures { result ≡ front_of words.now }
{
    let entry = number::decimal_of(words::word(words))?;
    let words = words::behind(words);
    let count = number::decimal_of(words::word(words))?;
    let buffer = number::decimal_of(words::word(words::behind(words)))?;
    Some(Asked {
        entry: entry as usize,
        count: count as usize,
        buffer,
    })
}

// Text, tape and buffer are lent for the words; answers the place behind what it put out, `bad` where the line is no case.
pub fn answer(
    words: &[u8],
    text: &mut [u8],
    tape: &mut [u32],
    spare: &mut [u8],
    o: &mut [u8],
    at: usize,
) -> usize
    ensures { ((o.new, result) ≡ put (o.old, at)
        (any_line words.now text.old tape.old spare.old).0)
        × (text.new ≡ (any_line words.now text.old tape.old spare.old).1)
        × (tape.new ≡ (any_line words.now text.old tape.old spare.old).2)
        × (spare.new ≡ (any_line words.now text.old tape.old spare.old).3) }
{
    let Some(q) = front(words) else {
        return show::bad(o, at);
    };
    let words = words::behind(words::behind(words::behind(words)));
    let Some(n) = hex::bytes(words::word(words), text) else {
        return show::bad(o, at);
    };
    let Some(k) = list::numbers(words::behind(words), tape) else {
        return show::bad(o, at);
    };
    contents::answer(
        lines::part(&text[..], 0, n),
        list::first(&tape[..], k),
        q,
        spare,
        o,
        at,
    )
}
