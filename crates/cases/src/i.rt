// `i WIDTH PLACE HEX`: a typed integer.
ghost use Rattle.std.specs.Prelude.{◌≡◌};
ghost use Rattle.lines.specs.Out.{put};
ghost use Rattle.cases.specs.Integers.{width_of, front_of, integer_line};

use sarridok::Width;
use words::{hex, number};

// What a line asks: an integer of this width, at this place.
#[derive(Clone, Copy)]
struct Asked {
    width: Width,
    place: usize,
}

// The widths are numbered as on a tape.
#[tactic(auto, unfolding(crate::specs::Integers::width_of))]
fn width_of(n: u64) -> Option<Width>
    ensures { result ≡ width_of n }
{
    match n {
        1 => Some(Width::I8),
        2 => Some(Width::I16),
        3 => Some(Width::I32),
        4 => Some(Width::I64),
        5 => Some(Width::U8),
        6 => Some(Width::U16),
        7 => Some(Width::U32),
        8 => Some(Width::U64),
        _ => None,
    }
}

// The width and the place that the first two words say; none where the line is no case.
fn front(words: &[u8]) -> Option<Asked>
    ensures { result ≡ front_of words.now }
{
    let n = number::decimal_of(words::word(words))?;
    let place = number::decimal_of(words::word(words::behind(words)))?;
    let width = width_of(n)?;
    Some(Asked {
        width,
        place: place as usize,
    })
}

// `bad` where the line is no case, else the value with the place behind it, or the refusal.
pub fn answer(words: &[u8], text: &mut [u8], o: &mut [u8], at: usize) -> usize
    ensures { ((o.new, result) ≡ put (o.old, at) (integer_line words.now text.old).0)
        × (text.new ≡ (integer_line words.now text.old).1) }
{
    let Some(asked) = front(words) else {
        return show::bad(o, at);
    };
    let Some(n) = hex::bytes(words::behind(words::behind(words)), text) else {
        return show::bad(o, at);
    };
    let value = sarridok::integer(lines::part(&text[..], 0, n), asked.place, asked.width);
    show::integer::read(o, at, value)
}
