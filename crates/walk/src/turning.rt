// What the next entry comes to, with the innermost bracket and the number of those around it.
ghost use Rattle.std.specs.Prelude.{◌≤◌, length};
ghost use Rattle.rows.specs.Rows.{room_of};
ghost use Rattle.walk.specs.inner.Turns.{Comes};

use grammar::ends::finished;
use grammar::kinds::kind_of;
use grammar::states::{Frame, Move, Want};
use grammar::steps::step;
use rows::row;
use text::Refusal;

// The walk goes on, inside the innermost bracket, into a new one or out of it, or it stops.
#[derive(Clone, Copy)]
pub enum Turn {
    Stay(Want, Frame),
    Push(Want, Frame),
    Pop,
    Stop(Result<(), Refusal>),
}

// At entry `i`, or at the end of the tape.
pub fn comes_to(
    tape: &[u32],
    count: usize,
    limit: usize,
    i: usize,
    depth: usize,
    want: Want,
    inside: Frame,
) -> Turn
    requires { (count ≤ room_of (length tape.now)) × (i ≤ count) }
    ensures { Comes tape.now count limit i depth want inside result }
{
    if count <= i {
        return Turn::Stop(finished(want, inside, i));
    }
    match step(want, kind_of(row::entry(tape, i).kind), inside) {
        Move::Stay(w, f) => Turn::Stay(w, f),
        Move::Push(w, f) => {
            if limit <= depth {
                return Turn::Stop(Err(Refusal::depth_limit_passed(i)));
            }
            Turn::Push(w, f)
        }
        Move::Pop => {
            if depth == 0 {
                return Turn::Stop(Err(Refusal::not_allowed_here(i)));
            }
            Turn::Pop
        }
        Move::Bad => Turn::Stop(Err(Refusal::not_allowed_here(i))),
    }
}
