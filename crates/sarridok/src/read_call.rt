// A text into a tape.
ghost use Rattle.std.specs.Prelude.{◌≡◌, length};
ghost use Rattle.read.specs.Read.{read_answer, read_tape};

use read::reader::read_text;
use text::Refusal;
use text::judge::judge;

// How many entries there are, five numbers each, from the front of the tape on; refused, it writes nothing.
pub fn read(text: &[u8], tape: &mut [u32]) -> Result<usize, Refusal>
    ensures { (result ≡ read_answer text.now (length tape.old))
        × (tape.new ≡ read_tape text.now tape.old) }
{
    judge(text)?;
    read_text(text, tape)
}
