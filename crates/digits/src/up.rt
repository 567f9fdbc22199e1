// The unsigned accumulator: up to a limit.
ghost use Rattle.std.specs.Prelude.{◌≡◌, ◌/◌, ◌<◌, ◌≤◌};
ghost use Rattle.digits.specs.Digits.{turn_of, digits_of};

use crate::Run;
use hexes::decode_hex;

// What one character of a run does to the number before it.
#[derive(Clone, Copy)]
pub enum Turned<N> {
    Next(N),
    Over,
    NotDigit,
}

// One character: a digit is multiplied in, judged, and added, in this order; most is the largest that may still be multiplied.
fn turn(acc: u64, c: u8, base: u64, limit: u64, most: u64) -> Turned<u64>
    requires { (0 < base) × (base ≤ 16) × (most ≡ limit / base) }
    ensures { result ≡ turn_of limit base acc c }
{
    if c == b'_' {
        return Turned::Next(acc);
    }
    if most < acc {
        return Turned::Over;
    }
    let product = acc * base;
    let digit = decode_hex(c);
    let Some(h) = digit else {
        return Turned::NotDigit;
    };
    let d = h as u64;
    if base <= d {
        return Turned::NotDigit;
    }
    if limit - product < d {
        return Turned::Over;
    }
    let next = product + d;
    Turned::Next(next)
}

// The quotient, in the two common bases by a number that the compiler knows: no division is left of it.
fn most_of(limit: u64, base: u64) -> u64
    requires { 0 < base }
    ensures { result ≡ limit / base }
{
    if base == 10 {
        return limit / 10;
    }
    if base == 16 {
        return limit / 16;
    }
    limit / base
}

// A whole run.
pub fn digits(run: &[u8], base: u64, limit: u64) -> Run
    requires { (0 < base) × (base ≤ 16) }
    ensures { result ≡ digits_of limit base run.now }
{
    let most = most_of(limit, base);
    let mut acc: u64 = 0;
    for (i, &c) in run.iter().enumerate() {
        match turn(acc, c, base, limit, most) {
            Turned::Next(next) => acc = next,
            Turned::Over => return Run::Over,
            Turned::NotDigit => return Run::NotDigit(i),
        }
    }
    Run::Value(acc)
}
