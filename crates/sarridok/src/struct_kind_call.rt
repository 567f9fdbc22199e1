// The kind of the struct at a place.
ghost use Rattle.std.specs.Prelude.{◌≡◌};
ghost use Rattle.sarridok.specs.StructKind.{struct_kind_of};

use structs::{NewtypeMode, StructType, TupleMode, check_struct_type, placed};
use text::Refusal;
use text::judge::{judge, place_fits};

// One of the crate's six kinds, as its `check_struct_type` has it, or a refusal; success reports no movement.
pub fn struct_kind(
    text: &[u8],
    place: usize,
    newtype: NewtypeMode,
    tuple: TupleMode,
) -> Result<StructType, Refusal>
    ensures { result ≡ struct_kind_of text.now place newtype tuple }
{
    judge(text)?;
    if !place_fits(text, place) {
        return Err(Refusal::unfit());
    }
    placed(check_struct_type(&text[place..], newtype, tuple), place)
}
