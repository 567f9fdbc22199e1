// `r HEX`: a text into a tape with room enough.
ghost use Rattle.std.specs.Prelude.{◌≡◌};
ghost use Rattle.lines.specs.Out.{put};
ghost use Rattle.tapes.specs.Reads.{room_for, read_line};

use crate::reads;
use rows::row;
use words::hex;

// As many numbers as the text can fill, and a few behind them.
#[tactic(auto, unfolding(crate::specs::Reads::room_for))]
fn room(bytes: usize) -> usize
    ensures { result ≡ room_for bytes }
{
    row::begins(bytes.min(65536)) + 16
}

// `bad` where the line is no case, else the entries or the refusal.
pub fn answer(words: &[u8], text: &mut [u8], tape: &mut [u32], o: &mut [u8], at: usize) -> usize
    ensures { ((o.new, result) ≡ put (o.old, at) (read_line words.now text.old tape.old).0)
        × (text.new ≡ (read_line words.now text.old tape.old).1)
        × (tape.new ≡ (read_line words.now text.old tape.old).2) }
{
    let Some(n) = hex::bytes(words, text) else {
        return show::bad(o, at);
    };
    let s = lines::part(&text[..], 0, n);
    reads::answer(s, room(s.len()), tape, o, at)
}
