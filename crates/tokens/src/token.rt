// The token at the front of a part.
ghost use Rattle.std.specs.Prelude.{◌≡◌};
ghost use Rattle.attributes.specs.Attributes.{attribute_of};
ghost use Rattle.names.specs.Classify.{word_of};
ghost use Rattle.strings.specs.Chars.{char_of, byte_of};
ghost use Rattle.strings.specs.Strings.{string_of, byte_string_of};
ghost use Rattle.tokens.specs.Token.{of_word, of_char, of_byte, of_string, of_byte_string, of_attribute, token_of};

use crate::shape::{Shape, shape_of};
use attributes::attribute;
use floats::float::FloatSpan;
use integers::width::Width;
use names::Word;
use names::classify::word;
use numbers::{Number, any_number};
use strings::chars::{byte_literal, char_literal};
use text::Refusal;
use text::bytes::peek;

// What a reader found, with its length; a refusal's place is counted from the token's front.
#[derive(Clone, Copy)]
pub enum Token {
    // One of the eight marks, by its kind.
    Mark(u32),
    Name(usize),
    RawName(usize),
    // An integer's width and length, a float's span, or what refuses them.
    Number(Number),
    // Its length and code point.
    Char(usize, u32),
    // Its length and decoded length.
    Str(usize, usize),
    ByteStr(usize, usize),
    // Its length and extensions.
    Attribute(usize, u32),
    Refused(Refusal),
}

fn read_word(s: &[u8]) -> Token
    ensures { result ≡ of_word (word_of s.now) }
{
    let found = word(s);
    match found {
        Word::Plain(n) => Token::Name(n),
        Word::Raw(n) => Token::RawName(n),
        Word::Float(n, suffix) => {
            let span = FloatSpan { len: n, suffix };
            Token::Number(Number::Float(span))
        }
        Word::Refused(refusal) => Token::Refused(refusal),
    }
}

fn read_char(s: &[u8]) -> Token
    ensures { result ≡ of_char (char_of s.now) }
{
    let found = char_literal(s);
    match found {
        Ok((len, code)) => Token::Char(len, code),
        Err(refusal) => Token::Refused(refusal),
    }
}

// A byte literal is an integer of 8 bits.
fn read_byte(s: &[u8]) -> Token
    ensures { result ≡ of_byte (byte_of s.now) }
{
    let found = byte_literal(s);
    match found {
        Ok((len, _)) => Token::Number(Number::Int(Width::U8, len)),
        Err(refusal) => Token::Refused(refusal),
    }
}

fn read_string(s: &[u8]) -> Token
    ensures { result ≡ of_string (string_of s.now) }
{
    let found = strings::string(s);
    match found {
        Ok(l) => Token::Str(l.len, l.decoded),
        Err(refusal) => Token::Refused(refusal),
    }
}

fn read_byte_string(s: &[u8]) -> Token
    ensures { result ≡ of_byte_string (byte_string_of s.now) }
{
    let found = strings::byte_string_no_base64(s);
    match found {
        Ok(l) => Token::ByteStr(l.len, l.decoded),
        Err(refusal) => Token::Refused(refusal),
    }
}

fn read_attribute(s: &[u8]) -> Token
    ensures { result ≡ of_attribute (attribute_of s.now) }
{
    let found = attribute(s);
    match found {
        Ok((n, extensions)) => Token::Attribute(n, extensions),
        Err(refusal) => Token::Refused(refusal),
    }
}

// By first characters.
pub fn token_at(s: &[u8]) -> Token
    ensures { result ≡ token_of s.now }
{
    let shape = shape_of(peek(s, 0), peek(s, 1), peek(s, 2));
    match shape {
        Shape::Mark(kind) => Token::Mark(kind),
        Shape::Attribute => read_attribute(s),
        Shape::Str => read_string(s),
        Shape::Char => read_char(s),
        Shape::Byte => read_byte(s),
        Shape::ByteStr => read_byte_string(s),
        Shape::Number => Token::Number(any_number(s)),
        Shape::Word => read_word(s),
    }
}
