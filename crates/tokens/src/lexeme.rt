// What a token is on the tape: its length, kind and detail.
ghost use Rattle.std.specs.Prelude.{◌≡◌, Ok};
ghost use Rattle.tokens.specs.Lexemes.{number_lexeme, lexeme_of};

use crate::token::Token;
use integers::width::code_of;
use numbers::Number;
use rows::kinds;
use text::Refusal;

// A token as an entry, without its place.
#[derive(Clone, Copy)]
pub struct Lexeme {
    pub len: usize,
    pub kind: u32,
    pub detail: usize,
}

fn read(len: usize, kind: u32, detail: usize) -> Result<Lexeme, Refusal>
    ensures { result ≡ Ok (record { len = len; kind = kind; detail = detail }) }
{
    Ok(Lexeme { len, kind, detail })
}

fn number_lexeme(n: Number) -> Result<Lexeme, Refusal>
    ensures { result ≡ number_lexeme n }
{
    match n {
        Number::Int(width, len) => {
            let code = code_of(width);
            read(len, kinds::INTEGER, code as usize)
        }
        Number::Float(span) => read(span.len, kinds::FLOAT, span.suffix as usize),
        Number::Refused(refusal) => Err(refusal),
    }
}

// A token's lexeme, or what refuses it. Kinds and details are document 01's numbers.
pub fn lexeme_of(t: Token) -> Result<Lexeme, Refusal>
    ensures { result ≡ lexeme_of t }
{
    match t {
        Token::Mark(kind) => read(1, kind, 0),
        Token::Name(n) => read(n, kinds::NAME, 0),
        Token::RawName(n) => read(n, kinds::RAW_NAME, 0),
        Token::Number(number) => number_lexeme(number),
        Token::Char(n, code) => read(n, kinds::CHAR, code as usize),
        Token::Str(n, decoded) => read(n, kinds::STRING, decoded),
        Token::ByteStr(n, decoded) => read(n, kinds::BYTE_STRING, decoded),
        Token::Attribute(n, extensions) => read(n, kinds::ATTRIBUTE, extensions as usize),
        Token::Refused(refusal) => Err(refusal),
    }
}
