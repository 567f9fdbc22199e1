// `w LIMIT HEX`: a text read, then walked.
ghost use Rattle.std.specs.Prelude.{◌+◌, min, ◌≡◌};
ghost use Rattle.lines.specs.Out.{put};
ghost use Rattle.read.specs.Read.{read_tape};
ghost use Rattle.tapes.specs.Walks.{asked as Walks·asked, walk_of_text, walk_line};

use crate::walks::{self, Asked};
use words::{hex, number};

// As many links as there are entries, and a few behind them.
fn links_for(count: usize) -> usize
    ensures { result ≡ min count 65536 + 16 }
{
    count.min(65536) + 16
}

fn asked(count: usize, limit: u64) -> Asked
    ensures { result ≡ Walks·asked count limit (min count 65536 + 16) }
{
    let room = links_for(count);
    Asked {
        count,
        limit: limit as usize,
        room,
    }
}

fn walked(
    text: &[u8],
    limit: u64,
    tape: &mut [u32],
    links: &mut [u32],
    o: &mut [u8],
    at: usize,
) -> usize
    ensures { ((o.new, result) ≡ put (o.old, at) (walk_of_text text.now limit tape.old links.old).0)
        × (tape.new ≡ read_tape text.now tape.old)
        × (links.new ≡ (walk_of_text text.now limit tape.old links.old).1) }
{
    let r = sarridok::read(text, tape);
    match r {
        Ok(n) => walks::answer(text, &tape[..], asked(n, limit), links, o, at),
        Err(f) => show::refused(o, at, f),
    }
}

// `bad` where the line is no case, else the links, or the refusal of the read or of the walk.
pub fn answer(
    words: &[u8],
    text: &mut [u8],
    tape: &mut [u32],
    links: &mut [u32],
    o: &mut [u8],
    at: usize,
) -> usize
    ensures { ((o.new, result) ≡ put (o.old, at)
        (walk_line words.now text.old tape.old links.old).0)
        × (text.new ≡ (walk_line words.now text.old tape.old links.old).1)
        × (tape.new ≡ (walk_line words.now text.old tape.old links.old).2)
        × (links.new ≡ (walk_line words.now text.old tape.old links.old).3) }
{
    let Some(limit) = number::decimal_of(words::word(words)) else {
        return show::bad(o, at);
    };
    let Some(n) = hex::bytes(words::behind(words), text) else {
        return show::bad(o, at);
    };
    walked(lines::part(&text[..], 0, n), limit, tape, links, o, at)
}
