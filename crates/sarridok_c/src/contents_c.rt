// `contents`: where the part begins and ends.
ghost use Rattle.std.specs.Prelude.{◌≡◌};
ghost use Rattle.sarridok.specs.Contents.{contents_of};
ghost use Rattle.sarridok_c.specs.Packed.{packed};
ghost use Rattle.sarridok_c.specs.Words.{span_word};

use crate::packing::{pair, refused};
use sarridok::Span;
use text::Refusal;

fn word(answer: Result<Span, Refusal>) -> u64
    ensures { result ≡ packed span_word answer }
{
    match answer {
        Ok(s) => pair(s.start as u64, s.end as u64),
        Err(refusal) => refused(refusal),
    }
}

// Where the contents of a string entry begin and end, where nothing in them is escaped.
pub fn sarridok_contents(text: &[u8], tape: &[u32], count: usize, entry: usize) -> u64
    ensures { result ≡ packed span_word (contents_of text.now tape.now count entry) }
{
    word(sarridok::contents(text, tape, count, entry))
}
