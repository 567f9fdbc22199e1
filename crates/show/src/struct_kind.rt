// The answer of a struct kind.
ghost use Rattle.std.specs.Prelude.{◌≡◌};
ghost use Rattle.lines.specs.Out.{put};
ghost use Rattle.show.specs.Answers.{answer_text};
ghost use Rattle.show.specs.StructKinds.{kind_name, kind_text};

use lines::out;
use sarridok::StructType;
use text::Refusal;

fn name(o: &mut [u8], at: usize, kind: StructType) -> usize
    ensures { (o.new, result) ≡ put (o.old, at) (kind_name kind) }
{
    match kind {
        StructType::AnyTuple => out::bytes(o, at, b"AnyTuple"),
        StructType::EmptyTuple => out::bytes(o, at, b"EmptyTuple"),
        StructType::NewtypeTuple => out::bytes(o, at, b"NewtypeTuple"),
        StructType::NonNewtypeTuple => out::bytes(o, at, b"NonNewtypeTuple"),
        StructType::Named => out::bytes(o, at, b"Named"),
        StructType::Unit => out::bytes(o, at, b"Unit"),
    }
}

// The kind by its name in the crate, or the refusal.
pub fn kind(o: &mut [u8], at: usize, r: Result<StructType, Refusal>) -> usize
    ensures { (o.new, result) ≡ put (o.old, at) (answer_text kind_text r) }
{
    match r {
        Ok(k) => {
            let a = out::bytes(o, at, b"ok ");
            name(o, a, k)
        }
        Err(f) => crate::refused(o, at, f),
    }
}
