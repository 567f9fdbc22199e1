// A RON text on standard input, to the entries of its tape.
#![tactic(auto)]

ghost use Rattle.std.specs.Prelude.{◌≡◌};
ghost use Rattle.lines.specs.Out.{put};
ghost use Rattle.read.specs.Read.{read_tape};
ghost use Rattle.tape.specs.Printed.{said_text, printed_text};

use lines::input::STDIN_FILENO;
use lines::{input, out};
use text::Refusal;

// What the read answered, over the tape that it left.
fn said(r: Result<usize, Refusal>, tape: &[u32], o: &mut [u8]) -> usize
    ensures { (o.new, result) ≡ put (o.old, 0) (said_text tape.now r) }
{
    match r {
        Ok(n) => show::of_read::accepted(o, 0, n, tape, b'\n'),
        Err(f) => show::placed(o, 0, f),
    }
}

// The answer to a text, from the front of the output on: where it ends there.
fn answer(text: &[u8], tape: &mut [u32], o: &mut [u8]) -> usize
    ensures { ((o.new, result) ≡ put (o.old, 0) (printed_text text.now tape.old))
        × (tape.new ≡ read_tape text.now tape.old) }
{
    let r = sarridok::read(text, tape);
    let a = said(r, &tape[..], o);
    out::byte(o, a, b'\n')
}

// A byte more than a text may have is read, so that a longer one is refused.
fn print(text: &mut [u8], tape: &mut [u32], o: &mut [u8]) {
    let n = io::read_full(STDIN_FILENO, text);
    input::drain();
    let end = answer(lines::part(&text[..], 0, n), tape, o);
    out::flush(&o[..], end);
}

// The arrays are lent as arrays first: then no proof computes their lengths.
fn lend(text: &mut [u8; 65537], tape: &mut [u32; 16384], o: &mut [u8; 16384]) {
    print(text, tape, o);
}

fn main() {
    let mut text = [0u8; 65537];
    let mut tape = [0u32; 16384];
    let mut o = [0u8; 16384];
    lend(&mut text, &mut tape, &mut o);
}
