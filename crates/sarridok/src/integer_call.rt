// A typed integer at a place, in one of eight widths.
ghost use Rattle.std.specs.Prelude.{◌≡◌, ◌<◌};
ghost use Rattle.sarridok.specs.Typed.{byte_as, integer_at, Fitting, placed_at, integer_of};

use integers::ident::check_str;
use integers::integer::typed;
use integers::width::code_of;
use integers::{Integer, Value, Width};
use plain_numbers::short::{Short, short_integer};
use strings::chars::byte_literal;
use text::Refusal;
use text::judge::{judge, place_fits};
use text::refusal::placed_behind;

// What a typed read accepts: a number, and the place behind it.
#[derive(Clone, Copy)]
pub struct Typed {
    pub number: Value,
    pub end: usize,
}

// A byte literal is u8, and for any other width of another kind.
fn byte_as(byte: Result<(usize, u8), Refusal>, width: Width) -> Integer
    ensures { result ≡ byte_as width byte }
{
    match byte {
        Ok((len, byte)) => {
            if code_of(width) != 5 {
                return Integer::OtherSuffix;
            }
            let value = Value {
                minus: false,
                magnitude: byte as u64,
            };
            Integer::Read(value, len)
        }
        Err(refusal) => Integer::Refused(refusal),
    }
}

// The integer at the front of a part.
pub fn integer_at(s: &[u8], width: Width) -> Integer
    ensures { result ≡ integer_at width s.now }
{
    if check_str(s, b"b'") {
        return byte_as(byte_literal(s), width);
    }
    typed(s, width)
}

// The same; a short one without the general reader.
fn number_at(s: &[u8], width: Width) -> Integer
    ensures { result ≡ integer_at width s.now }
{
    let short = short_integer(s, code_of(width));
    match short {
        Short::Value(magnitude, len) => {
            let value = Value {
                minus: false,
                magnitude,
            };
            Integer::Read(value, len)
        }
        Short::Other => integer_at(s, width),
    }
}

// The number and the place behind it, seen from the front of the text, or the refusal; 27 stands at 0.
fn placed(read: Integer, place: usize) -> Result<Typed, Refusal>
    requires { Fitting place read }
    ensures { result ≡ placed_at place read }
{
    match read {
        Integer::Read(number, len) => Ok(Typed {
            number,
            end: place + len,
        }),
        Integer::OtherSuffix => Err(Refusal::other_kind()),
        Integer::Refused(refusal) => Err(placed_behind(refusal, place)),
    }
}

// The integer at the place, in the width asked for, and the place behind it; 27 where its suffix names another.
pub fn integer(text: &[u8], place: usize, width: Width) -> Result<Typed, Refusal>
    ensures { result ≡ integer_of text.now place width }
{
    judge(text)?;
    if !place_fits(text, place) {
        return Err(Refusal::unfit());
    }
    placed(number_at(&text[place..], width), place)
}
