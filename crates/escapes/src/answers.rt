// What an escape is, and where it stands.
ghost use Rattle.std.specs.Prelude.{◌≡◌};
ghost use Rattle.text.specs.Refusals.{eof, invalid_escape};
ghost use Rattle.text.specs.declared.reason.EscapeReason.TheVariants.{UnicodeInByteLiteral};

use text::{EscapeReason, Refusal};

// A byte or a scalar value, with the number of bytes that the escape took; or its refusal, with the place counted from behind the `\`.
#[derive(Clone, Copy)]
pub enum EscapeAnswer {
    Ascii(u8, usize),
    Utf8(u32, usize),
    Refused(Refusal),
}

// In a string, in a char, or in a byte string or byte literal.
#[derive(Clone, Copy)]
pub enum Mode {
    Str,
    Char,
    Bytes,
}

// The text ends within an escape.
pub fn ended(place: usize) -> EscapeAnswer
    ensures { result ≡ EscapeAnswer.Refused (eof place) }
{
    EscapeAnswer::Refused(Refusal::eof(place))
}

// No escape stands there, for a reason.
pub fn invalid(why: EscapeReason, place: usize) -> EscapeAnswer
    ensures { result ≡ EscapeAnswer.Refused (invalid_escape why place) }
{
    EscapeAnswer::Refused(Refusal::invalid_escape(why, place))
}

// A character where a byte literal wants a byte: the one reason that the byte literal gives, and not the escape itself.
pub fn in_byte_literal(place: usize) -> Refusal
    ensures { result ≡ invalid_escape UnicodeInByteLiteral place }
{
    Refusal::invalid_escape(EscapeReason::UnicodeInByteLiteral, place)
}
