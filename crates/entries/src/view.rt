// The contents of a string as a part of the text, where nothing was escaped.
ghost use Rattle.std.specs.Prelude.{◌≡◌, ◌≤◌, length, drop};
ghost use Rattle.entries.specs.Named.{literal_of};
ghost use Rattle.entries.specs.Contents.{contents_in};

use crate::named::read_named;
use text::Refusal;
use text::refusal::placed_behind;

// A part of the text: its start and its end.
#[derive(Clone, Copy)]
pub struct Span {
    pub start: usize,
    pub end: usize,
}

// Of the string at a place: where the bytes inside begin and end, or the refusal.
pub fn contents_at(text: &[u8], bytes: bool, place: usize) -> Result<Span, Refusal>
    requires { place ≤ length text.now }
    ensures { result ≡ contents_in place (literal_of bytes (drop place text.now)) }
{
    let read = read_named(bytes, &text[place..]);
    match read {
        Ok(l) => {
            if l.escaped {
                return Err(Refusal::holds_escape());
            }
            let start = place + l.start;
            let end = place + l.end;
            Ok(Span { start, end })
        }
        Err(r) => Err(placed_behind(r, place)),
    }
}
