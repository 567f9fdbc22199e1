// Which type of struct stands at the front of a part.
ghost use Rattle.std.specs.Prelude.{◌≡◌, ◌≤◌, length};
ghost use Rattle.structs.specs.Structs.{undecided_of, after_name, inside_brackets, parenthesized, inside_newtype, struct_type_of};

use crate::kinds::{NewtypeMode, StructType, TupleMode, placed};
use crate::passes::skip_ws;
use crate::scan::{behind_comma, scan_value};
use cursor::ParserCursor;
use names::Identifier;
use names::identifiers::skip_identifier;
use text::Refusal;
use text::bytes::peek;

// Neither named nor empty: only a scan over the value tells more.
fn undecided(s: &[u8], at: usize, tuple: TupleMode) -> Result<StructType, Refusal>
    requires { at ≤ length s.now }
    ensures { result ≡ undecided_of tuple s.now at }
{
    match tuple {
        TupleMode::ImpreciseTupleOrNewtype => Ok(StructType::AnyTuple),
        TupleMode::DifferentiateNewtype => scan_value(s, at),
    }
}

// A name was passed; the scan would go on behind it.
fn behind_name(s: &[u8], at: usize, tuple: TupleMode) -> Result<StructType, Refusal>
    requires { at ≤ length s.now }
    ensures { result ≡ after_name tuple s.now at }
{
    let i = skip_ws(s, Ok(at))?;
    let c = peek(s, i);
    if c == b':' {
        return Ok(StructType::Named);
    }
    if c == b',' {
        let next = i + 1;
        return placed(behind_comma(&s[next..]), next);
    }
    if c == b')' {
        return Ok(StructType::NewtypeTuple);
    }
    undecided(s, i, tuple)
}

// What stands inside the brackets, from a place behind the whitespace in front.
fn contents(s: &[u8], at: usize, tuple: TupleMode) -> Result<StructType, Refusal>
    requires { at ≤ length s.now }
    ensures { result ≡ inside_brackets tuple s.now at }
{
    let name = skip_identifier(&s[at..]);
    match name {
        Identifier::Missing => undecided(s, at, tuple),
        Identifier::Name(n) => behind_name(s, at + n, tuple),
        Identifier::RawName(n) => behind_name(s, at + n, tuple),
    }
}

// Behind the `(` in front.
fn in_parens(s: &[u8], cursor: ParserCursor, tuple: TupleMode) -> Result<StructType, Refusal>
    requires { (cursor.cursor ≡ 1) × (1 ≤ length s.now) }
    ensures { result ≡ parenthesized tuple s.now }
{
    let at = cursor.cursor;
    let i = skip_ws(s, Ok(at))?;
    if peek(s, i) == b')' {
        return Ok(StructType::EmptyTuple);
    }
    contents(s, i, tuple)
}

// Inside a bracket that was passed already.
fn in_newtype(s: &[u8], tuple: TupleMode) -> Result<StructType, Refusal>
    ensures { result ≡ inside_newtype tuple s.now }
{
    let i = skip_ws(s, Ok(0))?;
    contents(s, i, tuple)
}

// The type of the struct at the front of a part, in both modes, or the refusal; without a bracket, where one has to stand, a unit struct.
pub fn check_struct_type(
    s: &[u8],
    newtype: NewtypeMode,
    tuple: TupleMode,
) -> Result<StructType, Refusal>
    ensures { result ≡ struct_type_of s.now newtype tuple }
{
    match newtype {
        NewtypeMode::NoParensMeanUnit => {
            let opened = ParserCursor::at(0).consume_char(s, b'(');
            if opened.found {
                let behind = opened.cursor;
                return in_parens(s, behind, tuple);
            }
            Ok(StructType::Unit)
        }
        NewtypeMode::InsideNewtype => in_newtype(s, tuple),
    }
}
