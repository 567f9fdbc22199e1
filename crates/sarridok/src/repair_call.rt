// The tape of an old text, made that of a text that differs in one run of bytes.
ghost use Rattle.std.specs.Prelude.{◌≡◌};
ghost use Rattle.repair.specs.Repair.{repair_of, repaired_tape};

use repair::repairer::{Repaired, repair_text};
use text::Refusal;
use text::judge::judge;

// How many entries there are now, and how many were kept before and behind; the old text had `old_len` bytes, and its bytes from a to b were replaced.
pub fn repair(
    tape: &mut [u32],
    count: usize,
    old_len: usize,
    a: usize,
    b: usize,
    text: &[u8],
) -> Result<Repaired, Refusal>
    ensures { (result ≡ repair_of tape.old count old_len a b text.now)
        × (tape.new ≡ repaired_tape tape.old count old_len a b text.now) }
{
    judge(text)?;
    repair_text(tape, count, old_len, a, b, text)
}
