// The float itself: a run with its suffix, or a signed inf or NaN.
ghost use Rattle.std.specs.Prelude.{◌≡◌};
ghost use Rattle.integers.specs.Words.{first_of};
ghost use Rattle.floats.specs.Float.{float_suffixes, specials, behind_float, run_at, float_of};

use crate::class::float_run;
use crate::judge::{Judged, judge_run};
use integers::front::sign_of;
use integers::ident::{Found, check_ident, nothing};
use text::Refusal;

// A float's length with its suffix, and which suffix: 32, 64, or 0 without one.
#[derive(Clone, Copy)]
pub struct FloatSpan {
    pub len: usize,
    pub suffix: u8,
}

// f32 or f64 at the front of the part.
fn float_suffix(t: &[u8]) -> Found
    ensures { result ≡ first_of float_suffixes t.now }
{
    if check_ident(t, b"f32") {
        return Found { code: 32, end: 3 };
    }
    if check_ident(t, b"f64") {
        return Found { code: 64, end: 3 };
    }
    nothing()
}

// inf or NaN at the front of the part, with or without a suffix.
pub fn special(t: &[u8]) -> Found
    ensures { result ≡ first_of specials t.now }
{
    if check_ident(t, b"inf") {
        return Found { code: 0, end: 3 };
    }
    if check_ident(t, b"inff32") {
        return Found { code: 32, end: 6 };
    }
    if check_ident(t, b"inff64") {
        return Found { code: 64, end: 6 };
    }
    if check_ident(t, b"NaN") {
        return Found { code: 0, end: 3 };
    }
    if check_ident(t, b"NaNf32") {
        return Found { code: 32, end: 6 };
    }
    if check_ident(t, b"NaNf64") {
        return Found { code: 64, end: 6 };
    }
    nothing()
}

// A run with its suffix: 12 before 11.
fn behind_judged(judged: Judged, code: u8, end: usize) -> Result<FloatSpan, Refusal>
    ensures { result ≡ behind_float code end judged }
{
    match judged {
        Judged::Misplaced(at) => Err(Refusal::float_underscore(at)),
        Judged::Fine => Ok(FloatSpan {
            len: end,
            suffix: code,
        }),
        Judged::Unfit => Err(Refusal::expected_float(0)),
    }
}

// A float without inf and NaN.
fn run_at(s: &[u8]) -> Result<FloatSpan, Refusal>
    ensures { result ≡ run_at s.now }
{
    let n = float_run(s);
    if n == 0 {
        return Err(Refusal::expected_float(0));
    }
    let judged = judge_run(&s[..n]);
    let found = float_suffix(&s[n..]);
    let end = n + found.end;
    behind_judged(judged, found.code, end)
}

// The span of the float that the part begins with, or a refusal; inf and NaN are floats behind a sign only.
pub fn float(s: &[u8]) -> Result<FloatSpan, Refusal>
    ensures { result ≡ float_of s.now }
{
    let sign = sign_of(s);
    let front = sign.end;
    if front == 0 {
        return run_at(s);
    }
    let found = special(&s[front..]);
    if found.end == 0 {
        return run_at(s);
    }
    let end = front + found.end;
    Ok(FloatSpan {
        len: end,
        suffix: found.code,
    })
}
