// The kinds of entries that the grammar tells apart.
ghost use Rattle.std.specs.Prelude.{◌≡◌};
ghost use Rattle.grammar.specs.Kinds.{kind_of, side_of};

use rows::kinds;

// Names and raw names are one kind here, and so are the five scalars.
#[derive(Clone, Copy)]
pub enum Kind {
    OpenRound,
    CloseRound,
    OpenSquare,
    CloseSquare,
    OpenCurly,
    CloseCurly,
    Comma,
    Colon,
    Name,
    Scalar,
    Attribute,
}

// An opening bracket, a closing one, or neither.
#[derive(Clone, Copy)]
pub enum Side {
    Opens,
    Closes,
    Neither,
}

// The kind that a number on the tape stands for.
pub fn kind_of(k: u32) -> Kind
    ensures { result ≡ kind_of k }
{
    if k == kinds::OPEN_PAREN {
        return Kind::OpenRound;
    }
    if k == kinds::CLOSE_PAREN {
        return Kind::CloseRound;
    }
    if k == kinds::OPEN_BRACKET {
        return Kind::OpenSquare;
    }
    if k == kinds::CLOSE_BRACKET {
        return Kind::CloseSquare;
    }
    if k == kinds::OPEN_BRACE {
        return Kind::OpenCurly;
    }
    if k == kinds::CLOSE_BRACE {
        return Kind::CloseCurly;
    }
    if k == kinds::COMMA {
        return Kind::Comma;
    }
    if k == kinds::COLON {
        return Kind::Colon;
    }
    if k < kinds::INTEGER {
        return Kind::Name;
    }
    if k < kinds::ATTRIBUTE {
        return Kind::Scalar;
    }
    Kind::Attribute
}

// All three shapes of brackets count.
pub fn side_of(kind: Kind) -> Side
    ensures { result ≡ side_of kind }
{
    match kind {
        Kind::OpenRound => Side::Opens,
        Kind::CloseRound => Side::Closes,
        Kind::OpenSquare => Side::Opens,
        Kind::CloseSquare => Side::Closes,
        Kind::OpenCurly => Side::Opens,
        Kind::CloseCurly => Side::Closes,
        Kind::Comma => Side::Neither,
        Kind::Colon => Side::Neither,
        Kind::Name => Side::Neither,
        Kind::Scalar => Side::Neither,
        Kind::Attribute => Side::Neither,
    }
}

// The same by the number on the tape; most entries are no bracket, and one look tells.
pub fn side_at(k: u32) -> Side
    ensures { result ≡ side_of (kind_of k) }
{
    if kinds::CLOSE_BRACE < k {
        return Side::Neither;
    }
    side_of(kind_of(k))
}
