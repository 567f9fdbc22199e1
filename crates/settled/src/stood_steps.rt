// Where a step through an attribute stands, and where the end of one does.
ghost use Rattle.std.specs.Prelude.{◌≡◌, true, ◌<◌};
ghost use Rattle.attributes.specs.Steps.{skip_from, consume_from};
ghost use Rattle.settled.specs.Stood.{step_end, all_end, sign_here, sign_stood, end_stood, bracket_stood, behind_stood};

use attributes::steps;
use text::Refusal;
use text::bytes::peek;

// Behind a step, or at its refusal.
fn step_end(step: Result<usize, Refusal>) -> usize
    ensures { result ≡ step_end step }
{
    match step {
        Ok(place) => place,
        Err(r) => r.place,
    }
}

// The same of signs.
pub fn all_end(signs: Result<(bool, usize), Refusal>) -> usize
    ensures { result ≡ all_end signs }
{
    match signs {
        Ok((_, place)) => place,
        Err(r) => r.place,
    }
}

// At a sign that has to stand at a place.
fn sign_here(s: &[u8], b: u8, at: usize) -> usize
    requires { 0 < b }
    ensures { result ≡ sign_here b s.now at }
{
    if peek(s, at) != b {
        return at;
    }
    let next = at + 1;
    let behind = steps::skip_ws(s, next);
    step_end(behind)
}

// At a sign that has to stand there, between whitespace.
pub fn sign_stood(s: &[u8], b: u8, at: usize) -> usize
    requires { 0 < b }
    ensures { result ≡ sign_stood b s.now at }
{
    let gap = steps::skip_ws(s, at);
    match gap {
        Ok(place) => sign_here(s, b, place),
        Err(r) => r.place,
    }
}

// At the `]`, where all before it was found or not.
fn end_stood(s: &[u8], all: bool, at: usize) -> usize
    ensures { result ≡ end_stood s.now all at }
{
    if all {
        if peek(s, at) != b']' {
            return at;
        }
        let end = at + 1;
        return end;
    }
    sign_here(s, b']', at)
}

// Behind the list of extensions.
pub fn bracket_stood(s: &[u8], at: usize) -> usize
    ensures { result ≡ bracket_stood s.now (consume_from 0x29 s.now true at) }
{
    let bracket = steps::consume(s, b')', Ok((true, at)));
    match bracket {
        Ok((all, place)) => end_stood(s, all, place),
        Err(r) => r.place,
    }
}

// Behind a string.
pub fn behind_stood(s: &[u8], at: usize) -> usize
    ensures { result ≡ behind_stood s.now (skip_from s.now at) }
{
    let behind = steps::skip_ws(s, at);
    match behind {
        Ok(place) => end_stood(s, true, place),
        Err(r) => r.place,
    }
}
