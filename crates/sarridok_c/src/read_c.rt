// `read`: the number of entries.
ghost use Rattle.std.specs.Prelude.{◌≡◌, length};
ghost use Rattle.read.specs.Read.{read_answer, read_tape};
ghost use Rattle.sarridok_c.specs.Packed.{packed};
ghost use Rattle.sarridok_c.specs.Words.{count_word};

use crate::packing::counted;

// Reads a text into a tape. Its answer is how many entries now stand at the tape's front.
pub fn sarridok_read(text: &[u8], tape: &mut [u32]) -> u64
    ensures { (result ≡ packed count_word (read_answer text.now (length tape.old)))
        × (tape.new ≡ read_tape text.now tape.old) }
{
    counted(sarridok::read(text, tape))
}
