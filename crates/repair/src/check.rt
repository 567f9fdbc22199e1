// What a repair asks of its numbers and its tape first (refusal 23).
ghost use Rattle.std.specs.Prelude.{◌≡◌};
ghost use Rattle.repair.specs.Repair.{cut_fits, repair_fits};

use rows::order::in_order;
use rows::row;

// Told by differences, since a sum of two numbers might not fit.
fn cut_fits(old_len: usize, a: usize, b: usize, new_len: usize) -> bool
    ensures { result ≡ cut_fits old_len a b new_len }
{
    if b < a {
        return false;
    }
    if old_len < b {
        return false;
    }
    let kept = old_len - b + a;
    kept <= new_len
}

// The cut lies in the old text, the new text is long enough for what was not cut, and the tape is in order.
pub fn repair_fits(
    tape: &[u32],
    count: usize,
    old_len: usize,
    a: usize,
    b: usize,
    new_len: usize,
) -> bool
    ensures { result ≡ repair_fits tape.now count old_len a b new_len }
{
    if !cut_fits(old_len, a, b, new_len) {
        return false;
    }
    if row::room(tape) < count {
        return false;
    }
    in_order(tape, count, old_len)
}
