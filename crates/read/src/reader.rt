// Both passes: what is refused writes nothing.
ghost use Rattle.std.specs.Prelude.{◌≡◌, ◌≤◌, length};
ghost use Rattle.rows.specs.Rows.{room_of};
ghost use Rattle.read.specs.Read.{fitted, reading_of, laid_by};

use crate::fill::fill;
use crate::measure::measure;
use rows::row;
use text::Refusal;

// The entries of a text of at most 65,536 bytes into the tape, and how many they are; or a refusal, 22 last.
pub fn read_text(text: &[u8], tape: &mut [u32]) -> Result<usize, Refusal>
    requires { length text.now ≤ 65536 }
    ensures { (result ≡ fitted (room_of (length tape.old)) (reading_of text.now))
        × (tape.new ≡ laid_by result (reading_of text.now) tape.old) }
{
    let n = measure(text)?;
    if row::room(&tape[..]) < n {
        return Err(Refusal::no_room());
    }
    fill(text, 0, tape, n);
    Ok(n)
}
