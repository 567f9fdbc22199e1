// What the end of the tape says.
ghost use Rattle.std.specs.Prelude.{Err, ◌≡◌};
ghost use Rattle.text.specs.Refusals.{tape_ends_early};
ghost use Rattle.grammar.specs.Walk.{ended, finish};

use crate::states::{Frame, Want};
use text::Refusal;

fn early(i: usize) -> Result<(), Refusal>
    ensures { result ≡ Err (tape_ends_early i) }
{
    Err(Refusal::tape_ends_early(i))
}

// Behind the last value nothing may be open.
fn at_end(inside: Frame, i: usize) -> Result<(), Refusal>
    ensures { result ≡ ended inside i }
{
    match inside {
        Frame::Top => Ok(()),
        Frame::Square => early(i),
        Frame::Tuple => early(i),
        Frame::Struct => early(i),
        Frame::Key => early(i),
        Frame::Pair => early(i),
    }
}

// Whether the entries are a document: where something is still wanted, the tape ends early.
pub fn finished(want: Want, inside: Frame, i: usize) -> Result<(), Refusal>
    ensures { result ≡ finish want inside i }
{
    match want {
        Want::Start => early(i),
        Want::Must => early(i),
        Want::Item => early(i),
        Want::First => early(i),
        Want::FirstName => early(i),
        Want::Named => at_end(inside, i),
        Want::Behind => at_end(inside, i),
        Want::Field => early(i),
        Want::FieldName => early(i),
    }
}
