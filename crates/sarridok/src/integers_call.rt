// All node numbers in one call: the integers that a list of entries names.
ghost use Rattle.std.specs.Prelude.{◌≡◌, length};
ghost use Rattle.sarridok.specs.Integers.{done, integers_of, magnitudes_after, codes_after};

use crate::items::{judge_items, write_items};
use rows::row::room;
use text::Refusal;
use text::judge::judge;

// For each entry number of the list the magnitude and a code, the width with 16 added below zero; refused, it writes nothing.
pub fn integers(
    text: &[u8],
    tape: &[u32],
    count: usize,
    items: &[u32],
    magnitudes: &mut [u64],
    codes: &mut [u8],
) -> Result<(), Refusal>
    ensures answer { result ≡ done (integers_of text.now tape.now count items.now
        (length magnitudes.old) (length codes.old)) }
    ensures magnitudes { magnitudes.new ≡
        magnitudes_after text.now tape.now count items.now magnitudes.old codes.old }
    ensures codes { codes.new ≡
        codes_after text.now tape.now count items.now magnitudes.old codes.old }
{
    judge(text)?;
    if room(tape) < count {
        return Err(Refusal::not_in_order());
    }
    judge_items(text, tape, count, items)?;
    if magnitudes.len() < items.len() {
        return Err(Refusal::no_room());
    }
    if codes.len() < items.len() {
        return Err(Refusal::no_room());
    }
    write_items(text, tape, count, items, magnitudes, codes);
    Ok(())
}
