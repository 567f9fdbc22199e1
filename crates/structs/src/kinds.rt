// What is asked and what is answered, in the crate's names and order.
ghost use Rattle.std.specs.Prelude.{◌≡◌, ◌+◌, ◌^◌, ◌<◌};
ghost use Rattle.structs.specs.Kinds.{Fitting, placed_kind};

use text::Refusal;
use text::refusal::placed_behind;

// Whether a bracket has to stand in front, or was passed already.
#[derive(Clone, Copy)]
pub enum NewtypeMode {
    NoParensMeanUnit,
    InsideNewtype,
}

// Whether tuples of one and of more elements are told apart.
#[derive(Clone, Copy)]
pub enum TupleMode {
    ImpreciseTupleOrNewtype,
    DifferentiateNewtype,
}

// The crate's six types of struct.
#[derive(Clone, Copy)]
pub enum StructType {
    AnyTuple,
    EmptyTuple,
    NewtypeTuple,
    NonNewtypeTuple,
    Named,
    Unit,
}

// An answer for a part that begins at a place, seen from the front.
pub fn placed(answer: Result<StructType, Refusal>, place: usize) -> Result<StructType, Refusal>
    requires { Fitting place answer }
    ensures { result ≡ placed_kind place answer }
{
    match answer {
        Ok(kind) => Ok(kind),
        Err(refusal) => Err(placed_behind(refusal, place)),
    }
}
