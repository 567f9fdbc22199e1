// What a closing bracket, a comma or a colon does: the innermost open bracket decides.
ghost use Rattle.std.specs.Prelude.{◌≡◌};
ghost use Rattle.grammar.specs.Steps.{close_round, close_square, close_pair, close_key, comma, colon};

use crate::states::{Frame, Move, Want};

// A closing round bracket.
pub fn close_round(inside: Frame) -> Move
    ensures { result ≡ close_round inside }
{
    match inside {
        Frame::Tuple => Move::Pop,
        Frame::Struct => Move::Pop,
        _ => Move::Bad,
    }
}

// A closing square bracket. This and the next two differ in the bracket alone: public names, beside which one function with a parameter would be a fourth.
pub fn close_square(inside: Frame) -> Move
    ensures { result ≡ close_square inside }
{
    match inside {
        Frame::Square => Move::Pop,
        _ => Move::Bad,
    }
}

// A closing curly bracket behind a value.
pub fn close_pair(inside: Frame) -> Move
    ensures { result ≡ close_pair inside }
{
    match inside {
        Frame::Pair => Move::Pop,
        _ => Move::Bad,
    }
}

// A closing curly bracket where a key may stand.
pub fn close_key(inside: Frame) -> Move
    ensures { result ≡ close_key inside }
{
    match inside {
        Frame::Key => Move::Pop,
        _ => Move::Bad,
    }
}

// A comma behind a value.
pub fn comma(inside: Frame) -> Move
    ensures { result ≡ comma inside }
{
    match inside {
        Frame::Square => Move::Stay(Want::Item, Frame::Square),
        Frame::Tuple => Move::Stay(Want::Item, Frame::Tuple),
        Frame::Struct => Move::Stay(Want::Field, Frame::Struct),
        Frame::Pair => Move::Stay(Want::Item, Frame::Key),
        _ => Move::Bad,
    }
}

// A colon behind a value.
pub fn colon(inside: Frame) -> Move
    ensures { result ≡ colon inside }
{
    match inside {
        Frame::Key => Move::Stay(Want::Must, Frame::Pair),
        _ => Move::Bad,
    }
}
