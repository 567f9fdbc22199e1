// `n HEX`: all integers of a text, with room enough.
ghost use Rattle.std.specs.Prelude.{◌≡◌};
ghost use Rattle.lines.specs.Out.{put};
ghost use Rattle.read.specs.Read.{read_tape};
ghost use Rattle.lists.specs.Listed.{asked as Listed·asked, most_for};
ghost use Rattle.lists.specs.Lists.{list_of_text, list_line};

use crate::gather;
use crate::listed::{self, Asked};
use words::{hex, list};

// Buffers for so many items, and a few behind them.
fn asked(count: usize, items: usize) -> Asked
    ensures { result ≡ Listed·asked (most_for items) (most_for items) count }
{
    let room = listed::most_for(items);
    Asked {
        magnitudes: room,
        codes: room,
        count,
    }
}

// The text is read, and its integers are gathered into the links.
fn read(
    text: &[u8],
    tape: &mut [u32],
    links: &mut [u32],
    numbers: &mut [u64],
    spare: &mut [u8],
    o: &mut [u8],
    at: usize,
) -> usize
    ensures result_after { (o.new, result) ≡ put (o.old, at)
        (list_of_text text.now tape.old links.old numbers.old spare.old).0 }
    ensures tape_after { tape.new ≡ read_tape text.now tape.old }
    ensures spare_after { (links.new, numbers.new, spare.new)
        ≡ (list_of_text text.now tape.old links.old numbers.old spare.old).1 }
{
    let r = sarridok::read(text, tape);
    match r {
        Ok(n) => {
            let k = gather::gather(&tape[..], n, links);
            let items = list::first(&links[..], k);
            let q = asked(n, items.len());
            listed::answer(text, &tape[..], q, items, numbers, spare, o, at)
        }
        Err(f) => show::refused(o, at, f),
    }
}

// `bad` where the line is no case, else the integers, or the refusal of the read or of the list.
pub fn answer(
    words: &[u8],
    text: &mut [u8],
    tape: &mut [u32],
    links: &mut [u32],
    numbers: &mut [u64],
    spare: &mut [u8],
    o: &mut [u8],
    at: usize,
) -> usize
    ensures result_after { (o.new, result) ≡ put (o.old, at) (list_line words.now text.old tape.old
        links.old numbers.old spare.old).0 }
    ensures spare_after { (text.new, tape.new, links.new, numbers.new, spare.new)
        ≡ (list_line words.now text.old tape.old links.old numbers.old spare.old).1 }
{
    let Some(n) = hex::bytes(words, text) else {
        return show::bad(o, at);
    };
    read(
        lines::part(&text[..], 0, n),
        tape,
        links,
        numbers,
        spare,
        o,
        at,
    )
}
