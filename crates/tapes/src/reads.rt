// A text read into a marked tape.
ghost use Rattle.std.specs.Prelude.{◌≡◌};
ghost use Rattle.lines.specs.Out.{put};
ghost use Rattle.tapes.specs.Reads.{written_of, tape_after, reads_text, read_in};

use lent::numbers;
use rows::row;
use text::Refusal;

// How many numbers an accepted read may change.
#[tactic(auto, unfolding(crate::specs::Reads::written_of))]
fn written(r: Result<usize, Refusal>) -> usize
    ensures { result ≡ written_of r }
{
    match r {
        Ok(n) if n <= 65536 => row::begins(n),
        _ => 0,
    }
}

fn read(text: &[u8], tape: &mut [u32], o: &mut [u8], at: usize) -> usize
    ensures { ((o.new, result) ≡ put (o.old, at) (reads_text text.now tape.old))
        × (tape.new ≡ tape_after text.now tape.old) }
{
    numbers::mark(tape);
    let r = sarridok::read(text, tape);
    let a = show::of_read::read(o, at, r, &tape[..], b';');
    let clean = numbers::kept(&tape[..], written(r));
    show::clean(o, a, clean)
}

// The tape has so many numbers, or all that are there.
pub fn answer(text: &[u8], room: usize, tape: &mut [u32], o: &mut [u8], at: usize) -> usize
    ensures { ((o.new, result) ≡ put (o.old, at) (read_in text.now room tape.old).0)
        × (tape.new ≡ (read_in text.now room tape.old).1) }
{
    if room < tape.len() {
        return read(text, &mut tape[0..room], o, at);
    }
    read(text, tape, o, at)
}
