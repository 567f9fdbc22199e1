// The refusals of the paper, each made here and nowhere else: a name for every number, after the crate's errors where it has one. 3 is no longer given (CR 5).
ghost use Rattle.std.specs.Prelude.{◌≡◌, ◌+◌, ◌^◌, ◌<◌};
ghost use Rattle.text.specs.Refusals.{refusal, placed_behind, too_long, not_utf8, unclosed_block_comment, unexpected_char, eof, expected_integer};
ghost use Rattle.text.specs.Refusals.{underscore_at_beginning, invalid_integer_digit, integer_out_of_bounds, expected_float, float_underscore};
ghost use Rattle.text.specs.Refusals.{invalid_escape, expected_char, expected_byte_literal, expected_string, expected_string_end, expected_byte_string};
ghost use Rattle.text.specs.Refusals.{expected_attribute, expected_attribute_end, no_such_extension, no_room, not_in_order, depth_limit_passed};
ghost use Rattle.text.specs.Refusals.{not_allowed_here, tape_ends_early, other_kind, unfit, holds_escape, entry_too_long, repeated_field, other_form};

use crate::reason::EscapeReason;

// A refused call's number, reason and place; inside a part of the text the place is counted from the part's front. The reason is that of an escape, else 0.
#[derive(Clone, Copy)]
pub struct Refusal {
    pub number: u8,
    pub reason: u8,
    pub place: usize,
}

fn at(number: u8, place: usize) -> Refusal
    ensures { result ≡ refusal number place }
{
    Refusal {
        number,
        reason: 0,
        place,
    }
}

// The same refusal, seen from `by` bytes further in front. No method: a host, to whom the type is handed out, has no call with a `requires`.
pub fn placed_behind(refused: Refusal, by: usize) -> Refusal
    requires { by + refused.place < 2 ^ 64 }
    ensures { result ≡ placed_behind by refused }
{
    Refusal {
        place: by + refused.place,
        ..refused
    }
}

impl Refusal {
    pub const TOO_LONG: u8 = 1;

    pub const NOT_UTF8: u8 = 2;

    pub const UNCLOSED_BLOCK_COMMENT: u8 = 4;

    pub const UNEXPECTED_CHAR: u8 = 5;

    pub const EOF: u8 = 6;

    pub const EXPECTED_INTEGER: u8 = 7;

    pub const UNDERSCORE_AT_BEGINNING: u8 = 8;

    pub const INVALID_INTEGER_DIGIT: u8 = 9;

    pub const INTEGER_OUT_OF_BOUNDS: u8 = 10;

    pub const EXPECTED_FLOAT: u8 = 11;

    pub const FLOAT_UNDERSCORE: u8 = 12;

    pub const INVALID_ESCAPE: u8 = 13;

    pub const EXPECTED_CHAR: u8 = 14;

    pub const EXPECTED_BYTE_LITERAL: u8 = 15;

    pub const EXPECTED_STRING: u8 = 16;

    pub const EXPECTED_STRING_END: u8 = 17;

    pub const EXPECTED_BYTE_STRING: u8 = 18;

    pub const EXPECTED_ATTRIBUTE: u8 = 19;

    pub const EXPECTED_ATTRIBUTE_END: u8 = 20;

    pub const NO_SUCH_EXTENSION: u8 = 21;

    pub const NO_ROOM: u8 = 22;

    pub const NOT_IN_ORDER: u8 = 23;

    pub const DEPTH_LIMIT_PASSED: u8 = 24;

    pub const NOT_ALLOWED_HERE: u8 = 25;

    pub const TAPE_ENDS_EARLY: u8 = 26;

    pub const OTHER_KIND: u8 = 27;

    pub const UNFIT: u8 = 28;

    pub const HOLDS_ESCAPE: u8 = 29;

    pub const ENTRY_TOO_LONG: u8 = 30;

    pub const REPEATED_FIELD: u8 = 31;

    pub const OTHER_FORM: u8 = 34;

    // 1: text over 65,536 bytes.
    pub fn too_long() -> Refusal
        ensures { result ≡ too_long }
    {
        at(Self::TOO_LONG, 0)
    }

    // 2: not UTF-8; the first byte of the first bad sequence.
    pub fn not_utf8(place: usize) -> Refusal
        ensures { result ≡ not_utf8 place }
    {
        at(Self::NOT_UTF8, place)
    }

    // 4: block comment not closed; end of text.
    pub fn unclosed_block_comment(place: usize) -> Refusal
        ensures { result ≡ unclosed_block_comment place }
    {
        at(Self::UNCLOSED_BLOCK_COMMENT, place)
    }

    // 5: unexpected character; behind it after `/`, at it where no token starts.
    pub fn unexpected_char(place: usize) -> Refusal
        ensures { result ≡ unexpected_char place }
    {
        at(Self::UNEXPECTED_CHAR, place)
    }

    // 6: text ends where a character is needed; end.
    pub fn eof(place: usize) -> Refusal
        ensures { result ≡ eof place }
    {
        at(Self::EOF, place)
    }

    // 7: integer expected.
    pub fn expected_integer(place: usize) -> Refusal
        ensures { result ≡ expected_integer place }
    {
        at(Self::EXPECTED_INTEGER, place)
    }

    // 8: underscore in front.
    pub fn underscore_at_beginning(place: usize) -> Refusal
        ensures { result ≡ underscore_at_beginning place }
    {
        at(Self::UNDERSCORE_AT_BEGINNING, place)
    }

    // 9: digit not below the base.
    pub fn invalid_integer_digit(place: usize) -> Refusal
        ensures { result ≡ invalid_integer_digit place }
    {
        at(Self::INVALID_INTEGER_DIGIT, place)
    }

    // 10: out of bounds.
    pub fn integer_out_of_bounds(place: usize) -> Refusal
        ensures { result ≡ integer_out_of_bounds place }
    {
        at(Self::INTEGER_OUT_OF_BOUNDS, place)
    }

    // 11: float expected.
    pub fn expected_float(place: usize) -> Refusal
        ensures { result ≡ expected_float place }
    {
        at(Self::EXPECTED_FLOAT, place)
    }

    // 12: misplaced underscore in a float.
    pub fn float_underscore(place: usize) -> Refusal
        ensures { result ≡ float_underscore place }
    {
        at(Self::FLOAT_UNDERSCORE, place)
    }

    // 13: invalid escape, with its reason.
    pub fn invalid_escape(why: EscapeReason, place: usize) -> Refusal
        ensures { result ≡ invalid_escape why place }
    {
        Refusal {
            number: Self::INVALID_ESCAPE,
            reason: why.number(),
            place,
        }
    }

    // 14: char expected.
    pub fn expected_char(place: usize) -> Refusal
        ensures { result ≡ expected_char place }
    {
        at(Self::EXPECTED_CHAR, place)
    }

    // 15: byte literal expected.
    pub fn expected_byte_literal(place: usize) -> Refusal
        ensures { result ≡ expected_byte_literal place }
    {
        at(Self::EXPECTED_BYTE_LITERAL, place)
    }

    // 16: string expected.
    pub fn expected_string(place: usize) -> Refusal
        ensures { result ≡ expected_string place }
    {
        at(Self::EXPECTED_STRING, place)
    }

    // 17: string end expected.
    pub fn expected_string_end(place: usize) -> Refusal
        ensures { result ≡ expected_string_end place }
    {
        at(Self::EXPECTED_STRING_END, place)
    }

    // 18: byte string expected.
    pub fn expected_byte_string(place: usize) -> Refusal
        ensures { result ≡ expected_byte_string place }
    {
        at(Self::EXPECTED_BYTE_STRING, place)
    }

    // 19: attribute; the `#`.
    pub fn expected_attribute(place: usize) -> Refusal
        ensures { result ≡ expected_attribute place }
    {
        at(Self::EXPECTED_ATTRIBUTE, place)
    }

    // 20: its end; the `#`.
    pub fn expected_attribute_end(place: usize) -> Refusal
        ensures { result ≡ expected_attribute_end place }
    {
        at(Self::EXPECTED_ATTRIBUTE_END, place)
    }

    // 21: unknown extension; the `#`.
    pub fn no_such_extension(place: usize) -> Refusal
        ensures { result ≡ no_such_extension place }
    {
        at(Self::NO_SUCH_EXTENSION, place)
    }

    // 22: no room.
    pub fn no_room() -> Refusal
        ensures { result ≡ no_room }
    {
        at(Self::NO_ROOM, 0)
    }

    // 23: repair: cut or lengths don't agree; repair or walk: tape not in order.
    pub fn not_in_order() -> Refusal
        ensures { result ≡ not_in_order }
    {
        at(Self::NOT_IN_ORDER, 0)
    }

    // 24: depth limit passed; entry number.
    pub fn depth_limit_passed(entry: usize) -> Refusal
        ensures { result ≡ depth_limit_passed entry }
    {
        at(Self::DEPTH_LIMIT_PASSED, entry)
    }

    // 25: entry not allowed here; entry number.
    pub fn not_allowed_here(entry: usize) -> Refusal
        ensures { result ≡ not_allowed_here entry }
    {
        at(Self::NOT_ALLOWED_HERE, entry)
    }

    // 26: tape ends early; entry count.
    pub fn tape_ends_early(count: usize) -> Refusal
        ensures { result ≡ tape_ends_early count }
    {
        at(Self::TAPE_ENDS_EARLY, count)
    }

    // 27: entry or suffix of another kind.
    pub fn other_kind() -> Refusal
        ensures { result ≡ other_kind }
    {
        at(Self::OTHER_KIND, 0)
    }

    // 28: place, entry number, cursor or depth limit unfit.
    pub fn unfit() -> Refusal
        ensures { result ≡ unfit }
    {
        at(Self::UNFIT, 0)
    }

    // 29: contents hold an escape or a line continuation.
    pub fn holds_escape() -> Refusal
        ensures { result ≡ holds_escape }
    {
        at(Self::HOLDS_ESCAPE, 0)
    }

    // 30: an entry undecided for too long, in a text that arrives; its start.
    pub fn entry_too_long(place: usize) -> Refusal
        ensures { result ≡ entry_too_long place }
    {
        at(Self::ENTRY_TOO_LONG, place)
    }

    // 31: repeated field; entry number.
    pub fn repeated_field(entry: usize) -> Refusal
        ensures { result ≡ repeated_field entry }
    {
        at(Self::REPEATED_FIELD, entry)
    }

    // 34: decimal not of the form that is converted.
    pub fn other_form() -> Refusal
        ensures { result ≡ other_form }
    {
        at(Self::OTHER_FORM, 0)
    }
}
