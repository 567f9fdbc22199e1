// `c KIND START HEX`: contents of the one entry of a tape, with room enough.
ghost use Rattle.std.specs.Prelude.{◌≡◌};
ghost use Rattle.lines.specs.Out.{put};
ghost use Rattle.cases.specs.Contents.{contents_line};

use crate::contents::{self, Asked};
use words::{hex, small};

// The tape has this one entry; the buffer is as long as the text can need.
pub fn answer(words: &[u8], text: &mut [u8], spare: &mut [u8], o: &mut [u8], at: usize) -> usize
    ensures { ((o.new, result) ≡ put (o.old, at) (contents_line words.now text.old spare.old).0)
        × (text.new ≡ (contents_line words.now text.old spare.old).1)
        × (spare.new ≡ (contents_line words.now text.old spare.old).2) }
{
    let Some(kind) = small::small_of(words::word(words)) else {
        return show::bad(o, at);
    };
    let words = words::behind(words);
    let Some(start) = small::small_of(words::word(words)) else {
        return show::bad(o, at);
    };
    let Some(n) = hex::bytes(words::behind(words), text) else {
        return show::bad(o, at);
    };
    let tape = [kind, start, 0, 0, 0];
    let q = Asked {
        entry: 0,
        count: 1,
        buffer: u64::MAX,
    };
    contents::answer(lines::part(&text[..], 0, n), &tape, q, spare, o, at)
}
