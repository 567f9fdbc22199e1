// The README's example for hosts in Rattle: a text is read and walked, and what came of it is printed.
#![tactic(auto)]

use lines::out;
use lines::out::STDOUT_FILENO;

// How many entries the text has, in one value; the byte where it is refused, or the entry at which the walk is.
fn entries(text: &[u8], tape: &mut [u32], links: &mut [u32]) -> usize {
    match sarridok::read(text, tape) {
        Ok(count) => match sarridok::walk(text, &tape[..], count, 128, links) {
            Ok(()) => count,
            Err(r) => r.place,
        },
        Err(r) => r.place,
    }
}

fn main() {
    let mut tape = [0u32; 80];
    let mut links = [0u32; 16];
    let n = entries(b"Lock(id: 7)", &mut tape, &mut links);
    let mut o = [0u8; 32];
    let a = out::number(&mut o, 0, n as u64);
    let b = out::bytes(&mut o, a, b" entries\n");
    io::write_all(STDOUT_FILENO, lines::part(&o, 0, b));
}
