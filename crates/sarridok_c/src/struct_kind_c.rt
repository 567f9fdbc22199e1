// `struct_kind`: the kind by its number.
ghost use Rattle.std.specs.Prelude.{◌≡◌};
ghost use Rattle.sarridok_c.specs.Packed.{packed};
ghost use Rattle.sarridok_c.specs.Words.{kind_word};
ghost use Rattle.sarridok_c.specs.Numbered.{newtype_at, tuple_at, kind_numbered};

use crate::packing::{refused, unfit_in};
use sarridok::{NewtypeMode, StructType, TupleMode};
use text::Refusal;

fn newtype_at(number: u32) -> NewtypeMode
    ensures { result ≡ newtype_at number }
{
    if number == 0 {
        return NewtypeMode::NoParensMeanUnit;
    }
    NewtypeMode::InsideNewtype
}

fn tuple_at(number: u32) -> TupleMode
    ensures { result ≡ tuple_at number }
{
    if number == 0 {
        return TupleMode::ImpreciseTupleOrNewtype;
    }
    TupleMode::DifferentiateNewtype
}

fn number_of(kind: StructType) -> u64
    ensures { result ≡ kind_word kind }
{
    match kind {
        StructType::AnyTuple => 0,
        StructType::EmptyTuple => 1,
        StructType::NewtypeTuple => 2,
        StructType::NonNewtypeTuple => 3,
        StructType::Named => 4,
        StructType::Unit => 5,
    }
}

fn word(answer: Result<StructType, Refusal>) -> u64
    ensures { result ≡ packed kind_word answer }
{
    match answer {
        Ok(kind) => number_of(kind),
        Err(refusal) => refused(refusal),
    }
}

// The type of the struct at a place, in two modes by their numbers. Its answer is the type's number.
pub fn sarridok_struct_kind(text: &[u8], place: usize, newtype: u32, tuple: u32) -> u64
    ensures { result ≡ packed kind_word (kind_numbered text.now place newtype tuple) }
{
    if 1 < newtype {
        return refused(unfit_in(text));
    }
    if 1 < tuple {
        return refused(unfit_in(text));
    }
    word(sarridok::struct_kind(text, place, newtype_at(newtype), tuple_at(tuple)))
}
