// What a token is read as, told from its first three bytes.
ghost use Rattle.std.specs.Prelude.{◌≡◌};
ghost use Rattle.tokens.specs.Shapes.{mark_kind, starts_number, behind_b, behind_r, shape_of};

use rows::kinds;

// One for each reader of tokens.
#[derive(Clone, Copy)]
pub enum Shape {
    // One of the eight marks, by its kind.
    Mark(u32),
    Attribute,
    Str,
    Char,
    Byte,
    ByteStr,
    Number,
    Word,
}

// The kind of a mark, and 0 for any other byte.
pub fn mark_kind(a: u8) -> u32
    ensures { result ≡ mark_kind a }
{
    if a == b'(' {
        return kinds::OPEN_PAREN;
    }
    if a == b')' {
        return kinds::CLOSE_PAREN;
    }
    if a == b'[' {
        return kinds::OPEN_BRACKET;
    }
    if a == b']' {
        return kinds::CLOSE_BRACKET;
    }
    if a == b'{' {
        return kinds::OPEN_BRACE;
    }
    if a == b'}' {
        return kinds::CLOSE_BRACE;
    }
    if a == b',' {
        return kinds::COMMA;
    }
    if a == b':' {
        return kinds::COLON;
    }
    0
}

fn starts_number(a: u8) -> bool
    ensures { result ≡ starts_number a }
{
    if a == b'+' {
        return true;
    }
    if a == b'-' {
        return true;
    }
    if a == b'.' {
        return true;
    }
    if a < b'0' {
        return false;
    }
    if b'9' < a {
        return false;
    }
    true
}

// What stands behind a first `b`.
fn behind_b(b: u8, c: u8) -> Shape
    ensures { result ≡ behind_b b c }
{
    if b == b'\'' {
        return Shape::Byte;
    }
    if b == b'"' {
        return Shape::ByteStr;
    }
    if b != b'r' {
        return Shape::Word;
    }
    if c == b'"' {
        return Shape::ByteStr;
    }
    if c == b'#' {
        return Shape::ByteStr;
    }
    Shape::Word
}

// What stands behind a first `r`.
fn behind_r(b: u8, c: u8) -> Shape
    ensures { result ≡ behind_r b c }
{
    if b == b'"' {
        return Shape::Str;
    }
    if b != b'#' {
        return Shape::Word;
    }
    if c == b'"' {
        return Shape::Str;
    }
    if c == b'#' {
        return Shape::Str;
    }
    Shape::Word
}

// Past the end of the text stands 0.
pub fn shape_of(a: u8, b: u8, c: u8) -> Shape
    ensures { result ≡ shape_of a b c }
{
    let kind = mark_kind(a);
    if 0 < kind {
        return Shape::Mark(kind);
    }
    if a == b'#' {
        return Shape::Attribute;
    }
    if a == b'"' {
        return Shape::Str;
    }
    if a == b'\'' {
        return Shape::Char;
    }
    if a == b'b' {
        return behind_b(b, c);
    }
    if a == b'r' {
        return behind_r(b, c);
    }
    if starts_number(a) {
        return Shape::Number;
    }
    Shape::Word
}
