// `W LIMIT LINKS COUNT HEX N,N,..`: a walk of any tape over any text, into that many links.
ghost use Rattle.std.specs.Prelude.{◌≡◌};
ghost use Rattle.lines.specs.Out.{put};
ghost use Rattle.tapes.specs.Walks.{front_of, any_line};

use crate::walks::{self, Asked};
use words::{hex, list, number};

// What the first three words ask; none where the line is no case.
fn front(words: &[u8]) -> Option<Asked>
    ensures { result ≡ front_of words.now }
{
    let limit = number::decimal_of(words::word(words))?;
    let words = words::behind(words);
    let room = number::decimal_of(words::word(words))?;
    let count = number::decimal_of(words::word(words::behind(words)))?;
    Some(Asked {
        count: count as usize,
        limit: limit as usize,
        room: room as usize,
    })
}

// `bad` where the line is no case, else the links or the refusal.
pub fn answer(
    words: &[u8],
    text: &mut [u8],
    tape: &mut [u32],
    links: &mut [u32],
    o: &mut [u8],
    at: usize,
) -> usize
    ensures { ((o.new, result) ≡ put (o.old, at)
        (any_line words.now text.old tape.old links.old).0)
        × (text.new ≡ (any_line words.now text.old tape.old links.old).1)
        × (tape.new ≡ (any_line words.now text.old tape.old links.old).2)
        × (links.new ≡ (any_line words.now text.old tape.old links.old).3) }
{
    let Some(q) = front(words) else {
        return show::bad(o, at);
    };
    let words = words::behind(words::behind(words::behind(words)));
    let Some(n) = hex::bytes(words::word(words), text) else {
        return show::bad(o, at);
    };
    let Some(m) = list::numbers(words::behind(words), tape) else {
        return show::bad(o, at);
    };
    walks::answer(
        lines::part(&text[..], 0, n),
        list::first(&tape[..], m),
        q,
        links,
        o,
        at,
    )
}
