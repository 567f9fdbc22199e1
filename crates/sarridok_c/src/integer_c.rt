// `integer`: the minus and the place behind the number, whose magnitude goes into a lent number.
ghost use Rattle.std.specs.Prelude.{◌≡◌};
ghost use Rattle.sarridok_c.specs.Packed.{packed, lent_after};
ghost use Rattle.sarridok_c.specs.Words.{typed_word, magnitude_of};
ghost use Rattle.sarridok_c.specs.Numbered.{integer_numbered};

use crate::packing::{bit, pair, refused, unfit_in};
use integers::width::width_at;
use sarridok::Typed;
use text::Refusal;

fn word(answer: Result<Typed, Refusal>, magnitude: &mut u64) -> u64
    ensures { (result ≡ packed typed_word answer)
        × (magnitude.new ≡ lent_after magnitude_of answer magnitude.old) }
{
    match answer {
        Ok(t) => {
            *magnitude = t.number.magnitude;
            pair(bit(t.number.minus), t.end as u64)
        }
        Err(refusal) => refused(refusal),
    }
}

// The integer at a place, in a width by its number. Its answer is the minus and the place behind it; `magnitude` is written.
pub fn sarridok_integer(text: &[u8], place: usize, width: u32, magnitude: &mut u64) -> u64
    ensures answer { result ≡ packed typed_word (integer_numbered text.now place width) }
    ensures number { magnitude.new ≡ lent_after magnitude_of (integer_numbered text.now place width) magnitude.old }
{
    if width < 1 {
        return refused(unfit_in(text));
    }
    if 8 < width {
        return refused(unfit_in(text));
    }
    word(
        sarridok::integer(text, place, width_at(width as u8)),
        magnitude,
    )
}
