// A RON text on standard input, explained to people: how many entries it has and how deep they are nested, or why it is refused, and where.
#![tactic(auto)]

mod answer;
mod excerpt;
mod sentence;

ghost use Rattle.std.specs.Prelude.{◌≡◌, ◌≤◌, length};
ghost use Rattle.lines.specs.Out.{put};
ghost use Rattle.read.specs.Read.{read_answer, read_tape};
ghost use Rattle.rows.specs.Rows.{room_of};
ghost use Rattle.sarridok.specs.Walked.{links_after};
ghost use Rattle.explain.specs.Explained.{walk_text, links_behind, explained};

use answer::{accepted, refused};
use depth::deepest;
use lines::input::STDIN_FILENO;
use lines::{input, out};
use opened::begun::read_begun;
use opened::walks::walk_begun;
use places::entry::walk_place;

// Brackets may be open up to this many.
const LIMIT: usize = 128;

// The walk of a tape with so many entries.
fn walked(o: &mut [u8], s: &[u8], tape: &[u32], count: usize, links: &mut [u32]) -> usize
    requires { count ≤ room_of (length tape.now) }
    ensures said { (o.new, result) ≡ put (o.old, 0) (walk_text s.now tape.now count (length links.old)) }
    ensures left { links.new ≡ links_after s.now tape.now count 128 links.old }
{
    let r = sarridok::walk(s, tape, count, LIMIT, links);
    match r {
        Ok(()) => accepted(o, count, deepest(tape, count)),
        Err(f) => {
            let place = walk_place(tape, count, f);
            let begun = walk_begun(s, tape, count, f);
            refused(o, s, f, place, begun)
        }
    }
}

// An accepted read has room for its entries.
fn explain(o: &mut [u8], s: &[u8], tape: &mut [u32], links: &mut [u32]) -> usize
    ensures said { (o.new, result) ≡ put (o.old, 0) (explained s.now tape.old (length links.old)) }
    ensures tape { tape.new ≡ read_tape s.now tape.old }
    ensures left { links.new ≡ links_behind s.now tape.new links.old (read_answer s.now (length tape.old)) }
{
    let r = sarridok::read(s, tape);
    match r {
        Ok(n) => walked(o, s, &tape[..], n, links),
        Err(f) => refused(o, s, f, f.place, read_begun(s, f.number)),
    }
}

// A byte more than a text may have is read, so that a longer one is refused.
fn print(text: &mut [u8], tape: &mut [u32], links: &mut [u32], o: &mut [u8]) {
    let n = io::read_full(STDIN_FILENO, text);
    input::drain();
    let end = explain(o, lines::part(&text[..], 0, n), tape, links);
    out::flush(&o[..], end);
}

// The arrays are lent as arrays first: then no proof computes their lengths.
fn lend(
    text: &mut [u8; 65537],
    tape: &mut [u32; 327680],
    links: &mut [u32; 65536],
    o: &mut [u8; 16384],
) {
    print(text, tape, links, o);
}

// A text has at most an entry for each byte, so the tape has room for all; with the links, about 1.7 MB of stack.
fn main() {
    let mut text = [0u8; 65537];
    let mut tape = [0u32; 327680];
    let mut links = [0u32; 65536];
    let mut o = [0u8; 16384];
    lend(&mut text, &mut tape, &mut links, &mut o);
}
