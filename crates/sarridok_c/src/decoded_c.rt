// `decoded`: how many bytes were written.
ghost use Rattle.std.specs.Prelude.{◌≡◌, length};
ghost use Rattle.sarridok.specs.Contents.{decoded_answer, decoded_out};
ghost use Rattle.sarridok_c.specs.Packed.{packed};
ghost use Rattle.sarridok_c.specs.Words.{count_word};

use crate::packing::counted;

// Decodes the contents of a string entry into `out`. Its answer is how many bytes stand at the front of it.
pub fn sarridok_decoded(
    text: &[u8],
    tape: &[u32],
    count: usize,
    entry: usize,
    out: &mut [u8],
) -> u64
    ensures { (result ≡ packed count_word (decoded_answer text.now tape.now count entry (length out.old)))
        × (out.new ≡ decoded_out text.now tape.now count entry out.old) }
{
    counted(sarridok::decoded(text, tape, count, entry, out))
}
