// The integer itself: read at a width, or at the first that fits.
ghost use Rattle.std.specs.Prelude.{◌≡◌, ◌<◌, ◌≤◌};
ghost use Rattle.digits.specs.Digits.{run_of};
ghost use Rattle.integers.specs.Width.{limit_at};
ghost use Rattle.integers.specs.Integer.{chosen_of, behind_run, numeral_of, other_suffix, number_read, typed_of, width_for, any_of};

use crate::front::front_of;
use crate::suffix::suffix_of;
use crate::width::{Width, code_of, first_fit, highest, lowest, widest_of, width_at};
use digits::Run;
use digits::digit::run_len;
use digits::down::digits_down;
use digits::up::digits;
use text::Refusal;
use text::refusal::placed_behind;

// A number: its magnitude, and whether it is below 0.
#[derive(Clone, Copy)]
pub struct Value {
    pub minus: bool,
    pub magnitude: u64,
}

// A typed read: the number with the place behind it, a suffix of another width, or a refusal.
#[derive(Clone, Copy)]
pub enum Integer {
    Read(Value, usize),
    OtherSuffix,
    Refused(Refusal),
}

// A run at a width: one accumulator goes up, and after a minus the other goes down.
fn parse_integer(run: &[u8], minus: bool, base: u64, code: u8) -> Run
    requires { (0 < base) × (base ≤ 16) }
    ensures { result ≡ run_of (limit_at code minus) base run.now }
{
    if run.len() == 0 {
        return Run::Empty;
    }
    if run[0] == b'_' {
        return Run::Underscore;
    }
    if minus {
        return digits_down(run, base, lowest(code));
    }
    digits(run, base, highest(code))
}

// The suffix's width, or without one the width that is asked for.
fn chosen(found: u8, asked: u8) -> u8
    ensures { result ≡ chosen_of found asked }
{
    if found == 0 {
        return asked;
    }
    found
}

// A suffix is skipped after a refusal, but not after 8 or 9.
fn behind_run(run: Run, found: u8, end: usize) -> Result<(u64, u8, usize), Refusal>
    ensures { result ≡ behind_run found end run }
{
    match run {
        Run::Value(magnitude) => Ok((magnitude, found, end)),
        Run::Empty => Err(Refusal::expected_integer(end)),
        Run::Underscore => Err(Refusal::underscore_at_beginning(0)),
        Run::NotDigit(at) => Err(Refusal::invalid_integer_digit(at)),
        Run::Over => Err(Refusal::integer_out_of_bounds(end)),
    }
}

// What stands behind sign and prefix: the magnitude, the suffix's code or 0, and the place behind both; or a refusal.
fn digits_and_suffix(
    t: &[u8],
    asked: u8,
    minus: bool,
    base: u64,
) -> Result<(u64, u8, usize), Refusal>
    requires { (0 < base) × (base ≤ 16) }
    ensures { result ≡ numeral_of asked minus base t.now }
{
    let n = run_len(t);
    let found = suffix_of(&t[n..]);
    let end = n + found.end;
    let code = chosen(found.code, asked);
    let run = parse_integer(&t[..n], minus, base, code);
    behind_run(run, found.code, end)
}

// A suffix that names another width than the one asked for.
fn is_other(found: u8, asked: u8) -> bool
    ensures { result ≡ other_suffix found asked }
{
    if found == 0 {
        return false;
    }
    found != asked
}

// The number that was read: 0 has no minus.
fn value_of(minus: bool, magnitude: u64) -> Value
    ensures { result ≡ number_read minus magnitude }
{
    if magnitude == 0 {
        return Value {
            minus: false,
            magnitude,
        };
    }
    Value { minus, magnitude }
}

// A typed read of what is no byte literal.
pub fn typed(s: &[u8], width: Width) -> Integer
    ensures { result ≡ typed_of width s.now }
{
    if s.len() == 0 {
        return Integer::Refused(Refusal::eof(0));
    }
    let front = front_of(s);
    let at = front.end;
    let asked = code_of(width);
    let read = digits_and_suffix(&s[at..], asked, front.minus, front.base);
    match read {
        Ok((magnitude, found, end)) => {
            if is_other(found, asked) {
                return Integer::OtherSuffix;
            }
            let value = value_of(front.minus, magnitude);
            Integer::Read(value, at + end)
        }
        Err(refusal) => Integer::Refused(placed_behind(refusal, at)),
    }
}

// The suffix's width, or without one the first that fits.
fn width_for(found: u8, minus: bool, magnitude: u64) -> Width
    ensures { result ≡ width_for found minus magnitude }
{
    if found == 0 {
        return first_fit(minus, magnitude);
    }
    width_at(found)
}

// A read of any width: the width and the place behind the number, or a refusal.
pub fn any_integer(s: &[u8]) -> Result<(Width, usize), Refusal>
    ensures { result ≡ any_of s.now }
{
    if s.len() == 0 {
        return Err(Refusal::eof(0));
    }
    let front = front_of(s);
    let at = front.end;
    let minus = front.minus;
    let asked = widest_of(minus);
    let read = digits_and_suffix(&s[at..], asked, minus, front.base);
    match read {
        Ok((magnitude, found, end)) => {
            let width = width_for(found, minus, magnitude);
            Ok((width, at + end))
        }
        Err(refusal) => Err(placed_behind(refusal, at)),
    }
}
