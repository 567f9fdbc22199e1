// Numbers (document 01, module 6), over the part of the text that begins at the token's place: an integer or a float, and which of the two. Behind a sign
// the longer of the two runs decides; an integer that cannot be read may still be a float.
#![tactic(auto)]

ghost use Rattle.std.specs.Prelude.{◌≡◌};
ghost use Rattle.floats.specs.Float.{float_of};
ghost use Rattle.numbers.specs.Numbers.{float_ahead, of_float, or_float, number_of};

use digits::digit::run_len;
use floats::class::{float_run, goes_on};
use floats::float::{FloatSpan, float};
use integers::front::sign_of;
use integers::integer::any_integer;
use integers::width::Width;
use text::Refusal;

// A number's case of the token: an integer's width and length, a float's span, or a refusal.
#[derive(Clone, Copy)]
pub enum Number {
    Int(Width, usize),
    Float(FloatSpan),
    Refused(Refusal),
}

// Behind one sign the float run is longer than the integer run; it is not counted where no float goes on behind the integer run.
pub fn next_bytes_is_float(s: &[u8]) -> bool
    ensures { result ≡ float_ahead s.now }
{
    let sign = sign_of(s);
    let front = sign.end;
    let valid_int_len = run_len(&s[front..]);
    let behind = front + valid_int_len;
    if !goes_on(&s[behind..]) {
        return false;
    }
    let valid_float_len = float_run(&s[front..]);
    valid_int_len < valid_float_len
}

// A float's answer as a number's.
fn of_float(f: Result<FloatSpan, Refusal>) -> Number
    ensures { result ≡ of_float f }
{
    match f {
        Ok(span) => Number::Float(span),
        Err(refusal) => Number::Refused(refusal),
    }
}

// A float is taken for a refused integer where it reaches at least as far.
fn or_float(refusal: Refusal, s: &[u8]) -> Number
    ensures { result ≡ or_float refusal (float_of s.now) }
{
    let f = float(s);
    match f {
        Ok(span) => {
            if refusal.place <= span.len {
                return Number::Float(span);
            }
            Number::Refused(refusal)
        }
        Err(_) => Number::Refused(refusal),
    }
}

// The number that the part begins with.
pub fn any_number(s: &[u8]) -> Number
    ensures { result ≡ number_of s.now }
{
    if next_bytes_is_float(s) {
        return of_float(float(s));
    }
    let i = any_integer(s);
    match i {
        Ok((width, len)) => Number::Int(width, len),
        Err(refusal) => or_float(refusal, s),
    }
}
