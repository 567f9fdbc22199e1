// The answer of a typed integer.
ghost use Rattle.std.specs.Prelude.{◌≡◌};
ghost use Rattle.lines.specs.Out.{put};
ghost use Rattle.sarridok.specs.Typed.{signed_number};
ghost use Rattle.show.specs.Answers.{answer_text};
ghost use Rattle.show.specs.Integers.{signed_text, typed_text};

use lines::out;
use sarridok::{Typed, Value};
use text::Refusal;

// The sign and digits of a value; zero has no sign.
fn value(o: &mut [u8], at: usize, v: Value) -> usize
    ensures { (o.new, result) ≡ put (o.old, at) (signed_text (signed_number v)) }
{
    if v.minus {
        if 0 < v.magnitude {
            let a = out::byte(o, at, b'-');
            return out::number(o, a, v.magnitude);
        }
    }
    out::number(o, at, v.magnitude)
}

// The value and the place behind it, or the refusal.
pub fn read(o: &mut [u8], at: usize, r: Result<Typed, Refusal>) -> usize
    ensures { (o.new, result) ≡ put (o.old, at) (answer_text typed_text r) }
{
    match r {
        Ok(t) => {
            let a = out::bytes(o, at, b"ok ");
            let b = value(o, a, t.number);
            out::word(o, b, t.end as u64)
        }
        Err(f) => crate::refused(o, at, f),
    }
}
