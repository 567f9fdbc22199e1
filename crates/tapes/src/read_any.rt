// `R NUMBERS HEX`: a text into a tape of so many numbers.
ghost use Rattle.std.specs.Prelude.{◌≡◌};
ghost use Rattle.lines.specs.Out.{put};
ghost use Rattle.tapes.specs.Reads.{any_line};

use crate::reads;
use words::{hex, number};

// `bad` where the line is no case, else the entries or the refusal.
pub fn answer(words: &[u8], text: &mut [u8], tape: &mut [u32], o: &mut [u8], at: usize) -> usize
    ensures { ((o.new, result) ≡ put (o.old, at) (any_line words.now text.old tape.old).0)
        × (text.new ≡ (any_line words.now text.old tape.old).1)
        × (tape.new ≡ (any_line words.now text.old tape.old).2) }
{
    let Some(numbers) = number::decimal_of(words::word(words)) else {
        return show::bad(o, at);
    };
    let Some(n) = hex::bytes(words::behind(words), text) else {
        return show::bad(o, at);
    };
    reads::answer(lines::part(&text[..], 0, n), numbers as usize, tape, o, at)
}
