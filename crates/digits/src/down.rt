// The signed accumulator: after a minus, down to a limit.
ghost use Rattle.std.specs.Prelude.{◌≡◌, ◌/◌, ◌<◌, ◌≤◌, pos, neg_ℤ, nat_abs};
ghost use Rattle.digits.specs.Digits.{turn_of, digits_of};
ghost use Rattle.digits.specs.inner.Down.{down_of};

use crate::Run;
use crate::up::Turned;
use hexes::decode_hex;

// One character: a digit is multiplied in, judged, and subtracted, in this order; least is the lowest that may still be multiplied.
fn turn_down(acc: i64, c: u8, base: u64, low: i64, least: i64) -> Turned<i64>
    requires { (0 < base) × (base ≤ 16) × (acc ≡ neg_ℤ (pos (nat_abs acc))) × (low ≡ neg_ℤ (pos (nat_abs low))) × (least ≡ neg_ℤ (pos (nat_abs low / base))) }
    ensures { result ≡ down_of (turn_of (nat_abs low) base (nat_abs acc) c) }
{
    if c == b'_' {
        return Turned::Next(acc);
    }
    let b = base as i64;
    if acc < least {
        return Turned::Over;
    }
    let product = acc * b;
    let digit = decode_hex(c);
    let Some(h) = digit else {
        return Turned::NotDigit;
    };
    let d = h as u64;
    if base <= d {
        return Turned::NotDigit;
    }
    let e = d as i64;
    if product < low + e {
        return Turned::Over;
    }
    let next = product - e;
    Turned::Next(next)
}

// A whole run after a minus; `digits` up to the magnitude would answer the same, but document 01 asks for one signed and one unsigned accumulator.
pub fn digits_down(run: &[u8], base: u64, low: i64) -> Run
    requires { (0 < base) × (base ≤ 16) × (low ≡ neg_ℤ (pos (nat_abs low))) }
    ensures { result ≡ digits_of (nat_abs low) base run.now }
{
    let b = base as i64;
    let least = low / b;
    let mut acc: i64 = 0;
    for (i, &c) in run.iter().enumerate() {
        match turn_down(acc, c, base, low, least) {
            Turned::Next(next) => acc = next,
            Turned::Over => return Run::Over,
            Turned::NotDigit => return Run::NotDigit(i),
        }
    }
    Run::Value(acc.unsigned_abs())
}
