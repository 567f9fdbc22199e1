// What an entry does, by what may stand there.
ghost use Rattle.std.specs.Prelude.{◌≡◌};
ghost use Rattle.grammar.specs.Steps.{value_of, start_of, item_of, first_of, behind_of, named_of, first_name_of, field_of, field_name_of, step_of};

use crate::kinds::Kind;
use crate::marks::{close_key, close_pair, close_round, close_square, colon, comma};
use crate::states::{Frame, Move, Want};

// Where a value begins.
fn value_of(kind: Kind, inside: Frame) -> Move
    ensures { result ≡ value_of kind inside }
{
    match kind {
        Kind::OpenRound => Move::Push(Want::First, Frame::Tuple),
        Kind::CloseRound => Move::Bad,
        Kind::CloseSquare => Move::Bad,
        Kind::CloseCurly => Move::Bad,
        Kind::Comma => Move::Bad,
        Kind::Colon => Move::Bad,
        Kind::Attribute => Move::Bad,
        Kind::OpenSquare => Move::Push(Want::Item, Frame::Square),
        Kind::OpenCurly => Move::Push(Want::Item, Frame::Key),
        Kind::Name => Move::Stay(Want::Named, inside),
        Kind::Scalar => Move::Stay(Want::Behind, inside),
    }
}

// Attributes, then a value.
fn start_of(kind: Kind, inside: Frame) -> Move
    ensures { result ≡ start_of kind inside }
{
    match kind {
        Kind::OpenRound => value_of(kind, inside),
        Kind::CloseRound => value_of(kind, inside),
        Kind::OpenSquare => value_of(kind, inside),
        Kind::CloseSquare => value_of(kind, inside),
        Kind::OpenCurly => value_of(kind, inside),
        Kind::CloseCurly => value_of(kind, inside),
        Kind::Comma => value_of(kind, inside),
        Kind::Colon => value_of(kind, inside),
        Kind::Name => value_of(kind, inside),
        Kind::Scalar => value_of(kind, inside),
        Kind::Attribute => Move::Stay(Want::Start, inside),
    }
}

// A value, or the end of the bracket.
fn item_of(kind: Kind, inside: Frame) -> Move
    ensures { result ≡ item_of kind inside }
{
    match kind {
        Kind::OpenRound => value_of(kind, inside),
        Kind::OpenSquare => value_of(kind, inside),
        Kind::OpenCurly => value_of(kind, inside),
        Kind::Comma => value_of(kind, inside),
        Kind::Colon => value_of(kind, inside),
        Kind::Name => value_of(kind, inside),
        Kind::Scalar => value_of(kind, inside),
        Kind::Attribute => value_of(kind, inside),
        Kind::CloseRound => close_round(inside),
        Kind::CloseSquare => close_square(inside),
        Kind::CloseCurly => close_key(inside),
    }
}

// Behind an opening round bracket.
fn first_of(kind: Kind, inside: Frame) -> Move
    ensures { result ≡ first_of kind inside }
{
    match kind {
        Kind::OpenRound => value_of(kind, inside),
        Kind::OpenSquare => value_of(kind, inside),
        Kind::CloseSquare => value_of(kind, inside),
        Kind::OpenCurly => value_of(kind, inside),
        Kind::CloseCurly => value_of(kind, inside),
        Kind::Comma => value_of(kind, inside),
        Kind::Colon => value_of(kind, inside),
        Kind::Scalar => value_of(kind, inside),
        Kind::Attribute => value_of(kind, inside),
        Kind::CloseRound => close_round(inside),
        Kind::Name => Move::Stay(Want::FirstName, inside),
    }
}

// Behind a value.
fn behind_of(kind: Kind, inside: Frame) -> Move
    ensures { result ≡ behind_of kind inside }
{
    match kind {
        Kind::OpenRound => Move::Bad,
        Kind::OpenSquare => Move::Bad,
        Kind::OpenCurly => Move::Bad,
        Kind::Name => Move::Bad,
        Kind::Scalar => Move::Bad,
        Kind::Attribute => Move::Bad,
        Kind::CloseRound => close_round(inside),
        Kind::CloseSquare => close_square(inside),
        Kind::CloseCurly => close_pair(inside),
        Kind::Comma => comma(inside),
        Kind::Colon => colon(inside),
    }
}

// Behind a name.
fn named_of(kind: Kind, inside: Frame) -> Move
    ensures { result ≡ named_of kind inside }
{
    match kind {
        Kind::OpenRound => Move::Push(Want::First, Frame::Tuple),
        Kind::CloseRound => behind_of(kind, inside),
        Kind::OpenSquare => behind_of(kind, inside),
        Kind::CloseSquare => behind_of(kind, inside),
        Kind::OpenCurly => behind_of(kind, inside),
        Kind::CloseCurly => behind_of(kind, inside),
        Kind::Comma => behind_of(kind, inside),
        Kind::Colon => behind_of(kind, inside),
        Kind::Name => behind_of(kind, inside),
        Kind::Scalar => behind_of(kind, inside),
        Kind::Attribute => behind_of(kind, inside),
    }
}

// Behind a name at the front of a round bracket.
fn first_name_of(kind: Kind, inside: Frame) -> Move
    ensures { result ≡ first_name_of kind inside }
{
    match kind {
        Kind::OpenRound => named_of(kind, inside),
        Kind::CloseRound => named_of(kind, inside),
        Kind::OpenSquare => named_of(kind, inside),
        Kind::CloseSquare => named_of(kind, inside),
        Kind::OpenCurly => named_of(kind, inside),
        Kind::CloseCurly => named_of(kind, inside),
        Kind::Comma => named_of(kind, inside),
        Kind::Name => named_of(kind, inside),
        Kind::Scalar => named_of(kind, inside),
        Kind::Attribute => named_of(kind, inside),
        Kind::Colon => Move::Stay(Want::Must, Frame::Struct),
    }
}

// Where a field may begin.
fn field_of(kind: Kind, inside: Frame) -> Move
    ensures { result ≡ field_of kind inside }
{
    match kind {
        Kind::OpenRound => Move::Bad,
        Kind::OpenSquare => Move::Bad,
        Kind::CloseSquare => Move::Bad,
        Kind::OpenCurly => Move::Bad,
        Kind::CloseCurly => Move::Bad,
        Kind::Comma => Move::Bad,
        Kind::Colon => Move::Bad,
        Kind::Scalar => Move::Bad,
        Kind::Attribute => Move::Bad,
        Kind::CloseRound => close_round(inside),
        Kind::Name => Move::Stay(Want::FieldName, inside),
    }
}

// Behind the name of a field.
fn field_name_of(kind: Kind, inside: Frame) -> Move
    ensures { result ≡ field_name_of kind inside }
{
    match kind {
        Kind::OpenRound => Move::Bad,
        Kind::CloseRound => Move::Bad,
        Kind::OpenSquare => Move::Bad,
        Kind::CloseSquare => Move::Bad,
        Kind::OpenCurly => Move::Bad,
        Kind::CloseCurly => Move::Bad,
        Kind::Comma => Move::Bad,
        Kind::Name => Move::Bad,
        Kind::Scalar => Move::Bad,
        Kind::Attribute => Move::Bad,
        Kind::Colon => Move::Stay(Want::Must, inside),
    }
}

// What an entry does.
pub fn step(want: Want, kind: Kind, inside: Frame) -> Move
    ensures { result ≡ step_of want kind inside }
{
    match want {
        Want::Start => start_of(kind, inside),
        Want::Must => value_of(kind, inside),
        Want::Item => item_of(kind, inside),
        Want::First => first_of(kind, inside),
        Want::FirstName => first_name_of(kind, inside),
        Want::Named => named_of(kind, inside),
        Want::Behind => behind_of(kind, inside),
        Want::Field => field_of(kind, inside),
        Want::FieldName => field_name_of(kind, inside),
    }
}
