// The grammar of Rust's `f64::from_str`, as a machine that takes a byte at a time.
ghost use Rattle.std.specs.Prelude.{◌≡◌};
ghost use Rattle.floats.specs.Grammar.{on_digit, on_point, on_scale, on_sign, step_of, final};
ghost use Rattle.floats.specs.Judged.{advance_of};

use crate::class::{is_scale, is_sign};
use text::classes::is_digit;

// Where a float's text stands: before a sign, behind it, in the whole part, behind a point without digits before it,
// behind a point that may end it, behind the e, behind its sign, in the exponent; or it is no float.
#[derive(Clone, Copy)]
pub enum State {
    Start,
    Signed,
    Whole,
    Bare,
    Fraction,
    Scale,
    ScaleSigned,
    Power,
    Wrong,
}

// Where a digit leads.
fn on_digit(st: State) -> State
    ensures { result ≡ on_digit st }
{
    match st {
        State::Start => State::Whole,
        State::Signed => State::Whole,
        State::Whole => State::Whole,
        State::Bare => State::Fraction,
        State::Fraction => State::Fraction,
        State::Scale => State::Power,
        State::ScaleSigned => State::Power,
        State::Power => State::Power,
        State::Wrong => State::Wrong,
    }
}

// Where a point leads.
fn on_point(st: State) -> State
    ensures { result ≡ on_point st }
{
    match st {
        State::Start => State::Bare,
        State::Signed => State::Bare,
        State::Whole => State::Fraction,
        State::Bare => State::Wrong,
        State::Fraction => State::Wrong,
        State::Scale => State::Wrong,
        State::ScaleSigned => State::Wrong,
        State::Power => State::Wrong,
        State::Wrong => State::Wrong,
    }
}

// Where an e leads.
fn on_scale(st: State) -> State
    ensures { result ≡ on_scale st }
{
    match st {
        State::Start => State::Wrong,
        State::Signed => State::Wrong,
        State::Whole => State::Scale,
        State::Bare => State::Wrong,
        State::Fraction => State::Scale,
        State::Scale => State::Wrong,
        State::ScaleSigned => State::Wrong,
        State::Power => State::Wrong,
        State::Wrong => State::Wrong,
    }
}

// Where a sign leads.
fn on_sign(st: State) -> State
    ensures { result ≡ on_sign st }
{
    match st {
        State::Start => State::Signed,
        State::Signed => State::Wrong,
        State::Whole => State::Wrong,
        State::Bare => State::Wrong,
        State::Fraction => State::Wrong,
        State::Scale => State::ScaleSigned,
        State::ScaleSigned => State::Wrong,
        State::Power => State::Wrong,
        State::Wrong => State::Wrong,
    }
}

// One byte further.
fn step(st: State, c: u8) -> State
    ensures { result ≡ step_of st c }
{
    if is_digit(c) {
        return on_digit(st);
    }
    if c == b'.' {
        return on_point(st);
    }
    if is_scale(c) {
        return on_scale(st);
    }
    if is_sign(c) {
        return on_sign(st);
    }
    State::Wrong
}

// One byte of a run further: an underscore is passed over.
pub fn advance(st: State, c: u8) -> State
    ensures { result ≡ advance_of st c }
{
    if c == b'_' {
        return st;
    }
    step(st, c)
}

// A float may end here.
pub fn is_final(st: State) -> bool
    ensures { result ≡ final st }
{
    match st {
        State::Start => false,
        State::Signed => false,
        State::Whole => true,
        State::Bare => false,
        State::Fraction => true,
        State::Scale => false,
        State::ScaleSigned => false,
        State::Power => true,
        State::Wrong => false,
    }
}
