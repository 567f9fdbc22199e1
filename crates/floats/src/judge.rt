// A float run judged: its underscores, then its form.
ghost use Rattle.std.specs.Prelude.{◌≡◌};
ghost use Rattle.floats.specs.Judged.{may_follow, misplaced, float_judged};

use crate::class::is_scale;
use crate::state::{State, advance, is_final};
use text::classes::is_digit;

// A float run has a misplaced underscore, is a float, or is none.
#[derive(Clone, Copy)]
pub enum Judged {
    Misplaced(usize),
    Fine,
    Unfit,
}

// An underscore may follow.
fn may_follow(may: bool, c: u8) -> bool
    ensures { result ≡ may_follow may c }
{
    if is_digit(c) {
        return true;
    }
    if is_scale(c) {
        return true;
    }
    if c == b'.' {
        return false;
    }
    may
}

// An underscore where none may follow.
fn is_misplaced(may: bool, c: u8) -> bool
    ensures { result ≡ misplaced may c }
{
    if c == b'_' {
        return !may;
    }
    false
}

// A whole run in one pass.
pub fn judge_run(part: &[u8]) -> Judged
    ensures { result ≡ float_judged part.now }
{
    let mut may = false;
    let mut st = State::Start;
    for (i, &c) in part.iter().enumerate() {
        if is_misplaced(may, c) {
            return Judged::Misplaced(i);
        }
        may = may_follow(may, c);
        st = advance(st, c);
    }
    if is_final(st) {
        return Judged::Fine;
    }
    Judged::Unfit
}
