// `integer`: the minus and the place behind the number, whose magnitude goes into a lent number.
ghost use Rattle.std.specs.Prelude.{◌≡◌};
ghost use Rattle.sarridok_c.specs.Packed.{packed, lent_after};
ghost use Rattle.sarridok_c.specs.Words.{typed_word, magnitude_of};
ghost use Rattle.sarridok_c.specs.Numbered.{integer_numbered};

// The integer at a place, in a width by its number. Its answer is the minus and the place behind it; `magnitude` is written.
#[unsafe(no_mangle)]
pub extern "C" fn sarridok_integer(
    text: &[u8],
    place: usize,
    width: u32,
    magnitude: &mut u64,
) -> u64
    ensures answer { result ≡ packed typed_word (integer_numbered text.now place width) }
    ensures number { magnitude.new ≡ lent_after magnitude_of (integer_numbered text.now place width) magnitude.old }
{
    sarridok_c::sarridok_integer(text, place, width, magnitude)
}
