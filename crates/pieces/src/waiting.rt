// The first byte that decides something of what has begun.
ghost use Rattle.std.specs.Prelude.{◌≡◌, ◌≤◌, ◌<◌, length};
ghost use Rattle.comments.specs.Gaps.{gap_of};
ghost use Rattle.comments.specs.declared.gap.Gap.TheVariants.{Clear};
ghost use Rattle.pieces.specs.inner.Waiting.{behind_stops, beyond_of, decides, next_stop, waited_of};

use crate::judge::judge;
use crate::places::later;
use crate::verdict::Verdict;
use settled::bytes::is_stop;
use settled::nothing::starts_nothing;
use text::Refusal;
use text::utf8::char_len;
use tokens::following::{Following, next_token};

// What is decided, and behind how many bytes; all where nothing is.
#[derive(Clone, Copy)]
pub struct Waited {
    pub bytes: usize,
    pub verdict: Verdict,
}

// The first stop byte at a place or behind it; the part's end where there is none.
fn next_stop(part: &[u8], from: usize) -> usize
    requires { from ≤ length part.now }
    ensures { result ≡ next_stop part.now from }
{
    for i in from..part.len() {
        if is_stop(part[i]) {
            return i;
        }
    }
    part.len()
}

// Behind the last stop byte that stands at a place or behind it; that place where there is none.
fn behind_stops(part: &[u8], from: usize) -> usize
    requires { from ≤ length part.now }
    ensures { result ≡ behind_stops part.now from }
{
    for i in (from..part.len()).rev() {
        if is_stop(part[i]) {
            return i + 1;
        }
    }
    from
}

// Where the next byte stands that may decide something: not before the first token's end, nor in a string that is not closed. So a long one is not read anew at
// each of its spaces.
pub fn beyond(part: &[u8], from: usize) -> usize
    requires { (from ≤ length part.now) × (length part.now ≤ 65536) }
    ensures { result ≡ beyond_of part.now from }
{
    let end = behind_stops(part, from);
    if end <= from {
        return from;
    }
    let found = next_token(&part[..end]);
    match found {
        Following::Token(g, l) => {
            let reach = g + l.len;
            if from + 1 < reach {
                return reach - 1;
            }
            from
        }
        Following::End => from,
        Following::Refused(refusal) => {
            if refusal.number == Refusal::EXPECTED_STRING_END {
                return end;
            }
            from
        }
    }
}

// Something is decided.
pub fn is_some(verdict: Verdict) -> bool
    ensures { result ≡ decides verdict }
{
    match verdict {
        Verdict::Nothing => false,
        Verdict::Gives(_, _) => true,
        Verdict::Shuts(_, _, _) => true,
    }
}

// What is decided first, of a part that begins with a token or with what starts none, by bytes behind the first `seen`.
pub fn wait(part: &[u8], seen: usize) -> Waited
    requires { (seen < length part.now) × (length part.now ≤ 65536) × (gap_of part.now ≡ Clear 0) }
    ensures { result ≡ waited_of part.now seen }
{
    if starts_nothing(part) {
        let bytes = later(char_len(part), seen + 1);
        let verdict = Verdict::Shuts(0, 0, Refusal::unexpected_char(0));
        return Waited { bytes, verdict };
    }
    let mut q = seen;
    loop {
        let j = next_stop(part, q);
        if j == part.len() {
            let verdict = Verdict::Nothing;
            return Waited { bytes: j, verdict };
        }
        let bytes = j + 1;
        let verdict = judge(&part[..bytes]);
        if is_some(verdict) {
            return Waited { bytes, verdict };
        }
        q = beyond(part, bytes);
    }
}
