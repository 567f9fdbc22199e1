// Many decisions at once: what the last deciding byte says of all that has come is what the bytes before it gave one by one, where none of them refused anything.
ghost use Rattle.std.specs.Prelude.{◌≡◌, ◌≤◌, ◌<◌, length};
ghost use Rattle.comments.specs.Gaps.{gap_of};
ghost use Rattle.comments.specs.declared.gap.Gap.TheVariants.{Clear};
ghost use Rattle.pieces.specs.inner.Waiting.{behind_deciders, leap_of, no_leap, opens_end, start_of, stridden, waited_of};
ghost use Rattle.pieces.specs.declared.verdict.Verdict.TheVariants.{Nothing};

use crate::judge::judge_scanned;
use crate::scan::scan;
use crate::verdict::Verdict;
use crate::waiting::{Waited, beyond, is_some, wait};
use read::scanned::Scanned;
use settled::bytes::is_decider;
use settled::refused::tells_end;
use text::Refusal;

// What is decided behind so many bytes; or, where nothing is, the end of the last entry before what is refused.
#[derive(Clone, Copy)]
struct Leapt {
    bytes: usize,
    verdict: Verdict,
    end: usize,
}

// Behind the last deciding byte that stands at a place or behind it; that place where there is none.
// One function for this and behind_stops would take the class as a closure, and again in its contract: that is no plainer.
fn behind_deciders(part: &[u8], from: usize) -> usize
    requires { from ≤ length part.now }
    ensures { result ≡ behind_deciders part.now from }
{
    for i in (from..part.len()).rev() {
        if is_decider(part[i]) {
            return i + 1;
        }
    }
    from
}

// Whether a reading was broken off by the end of its part, or not at all.
fn opens_end(ending: Result<(), Refusal>) -> bool
    ensures { result ≡ opens_end ending }
{
    match ending {
        Ok(()) => true,
        Err(refusal) => tells_end(refusal),
    }
}

// Nothing is decided.
fn no_leap(end: usize) -> Leapt
    ensures { result ≡ no_leap end }
{
    Leapt {
        bytes: 0,
        verdict: Verdict::Nothing,
        end,
    }
}

// What the last deciding byte of a part says, behind the first `seen`.
fn leap(part: &[u8], seen: usize) -> Leapt
    requires { (seen ≤ length part.now) × (length part.now ≤ 65536) }
    ensures { result ≡ leap_of part.now seen }
{
    let bytes = behind_deciders(part, seen);
    if bytes <= seen {
        return no_leap(0);
    }
    let all = scan(&part[..bytes]);
    let ending = all.ending;
    if !opens_end(ending) {
        return no_leap(all.end);
    }
    let verdict = judge_scanned(&part[..bytes], all);
    Leapt {
        bytes,
        verdict,
        end: 0,
    }
}

// A part in which it is not worth while to look for the first token's end.
const SHORT: usize = 64;

// From where on anything may be decided.
fn start_from(part: &[u8], seen: usize) -> usize
    requires { (seen ≤ length part.now) × (length part.now ≤ 65536) }
    ensures { result ≡ start_of part.now seen }
{
    if part.len() <= SHORT {
        return seen;
    }
    beyond(part, seen)
}

// Nothing is decided by all of a part.
fn nothing(part: &[u8]) -> Waited
    ensures { result ≡ record { bytes = length part.now; verdict = Nothing } }
{
    Waited {
        bytes: part.len(),
        verdict: Verdict::Nothing,
    }
}

// What is decided first, from a place on; nothing at the end.
fn wait_from(part: &[u8], from: usize) -> Waited
    requires { (from ≤ length part.now) × (length part.now ≤ 65536) × (gap_of part.now ≡ Clear 0) }
    ensures { result ≡ waited_of part.now from }
{
    if part.len() <= from {
        return nothing(part);
    }
    wait(part, from)
}

// What is decided of a part that begins with a token or with what starts none, by bytes behind the first `seen`: as much as can be told at once. Of a string that is
// not closed it is read once that there is nothing.
pub fn stride(part: &[u8], seen: usize) -> Waited
    requires { (seen < length part.now) × (length part.now ≤ 65536) × (gap_of part.now ≡ Clear 0) }
    ensures { result ≡ stridden part.now seen }
{
    let from = start_from(part, seen);
    let far = leap(part, from);
    let verdict = far.verdict;
    if is_some(verdict) {
        return Waited {
            bytes: far.bytes,
            verdict,
        };
    }
    let end = far.end;
    if end <= from {
        return wait_from(part, from);
    }
    let near = leap(&part[..end], from);
    let told = near.verdict;
    if is_some(told) {
        return Waited {
            bytes: near.bytes,
            verdict: told,
        };
    }
    wait_from(part, from)
}
