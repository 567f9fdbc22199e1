// The second pass: entries into rows.
ghost use Rattle.std.specs.Prelude.{◌≡◌, ◌≤◌, length, take};
ghost use Rattle.reading.specs.Readings.{read_from, entries};
ghost use Rattle.rows.specs.Rows.{room_of, laid};
ghost use Rattle.tokens.specs.Ron.{ron_token};

use crate::pass::pass;

// The first n entries of a text from a place on, into the first rows.
pub fn fill(text: &[u8], from: usize, tape: &mut [u32], n: usize)
    requires { (length text.now ≤ 65536) × (from ≤ length text.now) × (n ≤ room_of (length tape.old)) }
    ensures { tape.new ≡ laid (take n (entries (read_from ron_token text.now from))) tape.old }
{
    pass(text, from, tape, n, true);
}
