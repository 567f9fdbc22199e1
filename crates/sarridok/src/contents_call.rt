// The contents of a string entry: its place from one call, the part itself from the other.
ghost use Rattle.std.specs.Prelude.{◌≡◌};
ghost use Rattle.sarridok.specs.Contents.{contents_of, part_of};

use entries::named::find_named;
use entries::view::{Span, contents_at};
use text::Refusal;
use text::judge::judge;

// Where the bytes inside begin and end in the text, if nothing was escaped: else 29.
pub fn contents(text: &[u8], tape: &[u32], count: usize, entry: usize) -> Result<Span, Refusal>
    ensures { result ≡ contents_of text.now tape.now count entry }
{
    judge(text)?;
    let (bytes, place) = find_named(text, tape, count, entry)?;
    contents_at(text, bytes, place)
}

// The bytes inside, none on a refusal.
pub fn contents_part<'a>(text: &'a [u8], tape: &[u32], count: usize, entry: usize) -> &'a [u8]
    ensures { result.now ≡ part_of text.now (contents_of text.now tape.now count entry) }
{
    let answer = contents(text, tape, count, entry);
    match answer {
        Ok(span) => &text[span.start..span.end],
        Err(_) => &text[0..0],
    }
}
