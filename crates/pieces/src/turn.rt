// One decision: from where the last entry given ended, over the bytes that nobody has looked at yet.
ghost use Rattle.std.specs.Prelude.{◌≡◌, ◌+◌, ◌-◌, ◌≤◌, ◌<◌, length, drop, take};
ghost use Rattle.comments.specs.Gaps.{gap_of};
ghost use Rattle.comments.specs.declared.gap.Gap.TheVariants.{Clear};
ghost use Rattle.octets.specs.Octets.{Cut};
ghost use Rattle.pieces.specs.inner.Turns.{behind_slash_at, undecided_at, decided_at, turn_of};

use crate::places::{later, sooner};
use crate::stride::stride;
use crate::verdict::Verdict;
use gaps::{Open, Passed, pass_gap};
use text::Refusal;
use text::refusal::placed_behind;

// How many bytes from an undecided entry's start are held at most.
const MOST_HELD: usize = 4096;

// Where a text stands.
#[derive(Clone, Copy)]
pub enum Stands {
    // Nothing has begun, and this is open.
    Within(Open),
    // What has begun at this place is kept.
    Begun(usize),
    // So is what stands behind this place, a `/` and bytes that are no character.
    Held(usize),
    Stopped(Refusal),
}

// What bytes come to. No `Result`: neither case is an error, a run goes on behind the one and ends with the other.
#[derive(Clone, Copy)]
pub enum Turned {
    // So many entries; where the last of them ends; behind the byte that decided them.
    On(usize, usize, usize),
    // So many entries, where the last of them ends, behind the last byte that was taken, and where the text stands.
    Over(usize, usize, usize, Stands),
}

// At a `/` and a character that starts no comment, which together end at a place.
fn behind_slash(s: &[u8], at: usize, place: usize, seen: usize) -> Turned
    requires { (0 < place) × (place ≤ length s.now) × (seen ≤ length s.now) × (length s.now ≤ 65536) }
    ensures { result ≡ behind_slash_at s.now at place seen }
{
    // Of a character that is none nothing is told: it was among the bytes that a host kept.
    if s[place - 1] == b'/' {
        return Turned::Over(0, at, s.len(), Stands::Held(at));
    }
    if seen == s.len() {
        return Turned::Over(0, at, seen, Stands::Held(at));
    }
    let bytes = later(place, seen + 1);
    Turned::Over(
        0,
        at,
        bytes,
        Stands::Stopped(Refusal::unexpected_char(place)),
    )
}

// Nothing is decided of what has begun at a place: 30 where more bytes have come than may be held.
fn undecided(s: &[u8], at: usize, start: usize, seen: usize) -> Turned
    requires { (start ≤ length s.now) × (length s.now ≤ 65536) }
    ensures { result ≡ undecided_at s.now at start seen }
{
    let most = later(seen, start + MOST_HELD);
    if most < s.len() {
        return Turned::Over(0, at, most, Stands::Stopped(Refusal::entry_too_long(start)));
    }
    Turned::Over(0, at, s.len(), Stands::Begun(start))
}

// What is decided of what has begun at a place.
fn decided(s: &[u8], at: usize, start: usize, seen: usize) -> Turned
    requires { (start < length s.now) × (seen ≤ length s.now) × (length s.now ≤ 65536) × (gap_of (drop start s.now) ≡ Clear 0) }
    ensures { result ≡ decided_at s.now at start seen }
{
    let here = later(seen, start);
    let to = sooner(start + MOST_HELD, s.len());
    if to <= here {
        return undecided(s, at, start, seen);
    }
    let waited = stride(&s[start..to], here - start);
    let bytes = start + waited.bytes;
    let verdict = waited.verdict;
    match verdict {
        Verdict::Nothing => undecided(s, at, start, seen),
        Verdict::Gives(n, end) => Turned::On(n, start + end, bytes),
        Verdict::Shuts(n, end, refusal) => {
            let stop = Stands::Stopped(placed_behind(refusal, start));
            if n == 0 {
                return Turned::Over(0, at, bytes, stop);
            }
            Turned::Over(n, start + end, bytes, stop)
        }
    }
}

// The next decision of the bytes of s, where the last entry given ended at a place and those before `seen` were looked at; those from `whole` on belong to a character
// that has not come whole.
pub fn turn(s: &[u8], at: usize, seen: usize, whole: usize) -> Turned
    requires { (at ≤ whole) × (whole ≤ length s.now) × (seen ≤ length s.now) × (length s.now ≤ 65536) × Cut (drop whole s.now) }
    ensures { result ≡ turn_of s.now at seen whole }
{
    let gap = pass_gap(Open::Clear, &s[at..whole]);
    match gap {
        Passed::Within(o) => Turned::Over(0, at, s.len(), Stands::Within(o)),
        Passed::Unexpected(p) => behind_slash(s, at, at + p, seen),
        Passed::Begins(k) => decided(s, at, at + k, seen),
    }
}
