// `integers`: 0.
ghost use Rattle.std.specs.Prelude.{◌≡◌, length};
ghost use Rattle.sarridok.specs.Integers.{done, integers_of, magnitudes_after, codes_after};
ghost use Rattle.sarridok_c.specs.Packed.{packed};
ghost use Rattle.sarridok_c.specs.Words.{done_word};

use crate::packing::done;

// Reads the integers that a list of entries names, each in its entry's width. Its answer is 0; a magnitude and a code are written for each.
pub fn sarridok_integers(
    text: &[u8],
    tape: &[u32],
    count: usize,
    items: &[u32],
    magnitudes: &mut [u64],
    codes: &mut [u8],
) -> u64
    ensures answer { result ≡ packed done_word (done (integers_of text.now tape.now count items.now
        (length magnitudes.old) (length codes.old))) }
    ensures magnitudes { magnitudes.new ≡
        magnitudes_after text.now tape.now count items.now magnitudes.old codes.old }
    ensures codes { codes.new ≡
        codes_after text.now tape.now count items.now magnitudes.old codes.old }
{
    done(sarridok::integers(text, tape, count, items, magnitudes, codes))
}
