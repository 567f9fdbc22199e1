// `I LISTROOM CODEROOM COUNT E,E,.. HEX N,N,..`: any list over any tape and any text, into buffers of so many numbers and bytes.
ghost use Rattle.std.specs.Prelude.{◌≡◌};
ghost use Rattle.lines.specs.Out.{put};
ghost use Rattle.lists.specs.Lists.{front_of, over_tape, any_line};

use crate::listed::{self, Asked};
use words::{hex, list, number};

// What the first three words ask; none where the line is no case.
fn front(words: &[u8]) -> Option<Asked>
    ensures { result ≡ front_of words.now }
{
    let magnitudes = number::decimal_of(words::word(words))?;
    let words = words::behind(words);
    let codes = number::decimal_of(words::word(words))?;
    let count = number::decimal_of(words::word(words::behind(words)))?;
    Some(Asked {
        magnitudes: magnitudes as usize,
        codes: codes as usize,
        count: count as usize,
    })
}

// The words behind the list are the text and the tape.
fn over_tape(
    q: Asked,
    items: &[u32],
    words: &[u8],
    text: &mut [u8],
    tape: &mut [u32],
    numbers: &mut [u64],
    spare: &mut [u8],
    o: &mut [u8],
    at: usize,
) -> usize
    ensures result_after { (o.new, result) ≡ put (o.old, at)
        (over_tape q items.now words.now text.old tape.old numbers.old spare.old).0 }
    ensures spare_after { (text.new, tape.new, numbers.new, spare.new)
        ≡ (over_tape q items.now words.now text.old tape.old numbers.old spare.old).1 }
{
    let Some(n) = hex::bytes(words::word(words), text) else {
        return show::bad(o, at);
    };
    let Some(m) = list::numbers(words::behind(words), tape) else {
        return show::bad(o, at);
    };
    let s = lines::part(&text[..], 0, n);
    let t = list::first(&tape[..], m);
    listed::answer(s, t, q, items, numbers, spare, o, at)
}

// `bad` where the line is no case, else the integers or the refusal.
pub fn answer(
    words: &[u8],
    text: &mut [u8],
    tape: &mut [u32],
    links: &mut [u32],
    numbers: &mut [u64],
    spare: &mut [u8],
    o: &mut [u8],
    at: usize,
) -> usize
    ensures result_after { (o.new, result) ≡ put (o.old, at) (any_line words.now text.old tape.old
        links.old numbers.old spare.old).0 }
    ensures spare_after { (text.new, tape.new, links.new, numbers.new, spare.new)
        ≡ (any_line words.now text.old tape.old links.old numbers.old spare.old).1 }
{
    let Some(q) = front(words) else {
        return show::bad(o, at);
    };
    let words = words::behind(words::behind(words::behind(words)));
    let Some(k) = list::numbers(words::word(words), links) else {
        return show::bad(o, at);
    };
    let items = list::first(&links[..], k);
    if 65536 < items.len() {
        return show::bad(o, at);
    }
    over_tape(
        q,
        items,
        words::behind(words),
        text,
        tape,
        numbers,
        spare,
        o,
        at,
    )
}
