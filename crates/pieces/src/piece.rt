// The call `piece`: both passes, and what is kept behind them.
ghost use Rattle.std.specs.Prelude.{◌≡◌, ◌+◌, ◌≤◌, length};
ghost use Rattle.rows.specs.Rows.{room_of};
ghost use Rattle.pieces.specs.Pieces.{arrived_of, in_room, kept_in, laid_in, piece_of};
ghost use Rattle.pieces.specs.inner.Steps.{Fit, StopFits, barred_of, former_of, kept_from, open_in, outcome_in, stop_of, stopped_state};

use crate::come::{Reached, come};
use crate::keep::keep;
use crate::lay::lay;
use crate::limit::{Most, limit};
use crate::order::fits;
use crate::state::{Arrival, Arrived, no_refusal};
use crate::turn::Stands;
use gaps::Open;
use rows::row;
use text::Refusal;
use text::refusal::placed_behind;

const MOST_HELD: usize = 4096;

// What bars a byte, if one follows.
fn barred(follows: bool, why: Refusal) -> Refusal
    ensures { result ≡ barred_of follows why }
{
    if follows {
        return why;
    }
    no_refusal()
}

// The refusal behind what bytes gave, the last of which ends at a place: their own, or, where a byte follows that is not taken, that byte's.
fn stop(stands: Stands, end: usize, base: usize, follows: bool, why: Refusal) -> Refusal
    requires { StopFits stands end base }
    ensures { result ≡ stop_of stands end base follows why }
{
    match stands {
        Stands::Stopped(refusal) => placed_behind(refusal, base),
        Stands::Within(_) => barred(follows, why),
        Stands::Held(_) => barred(follows, why),
        Stands::Begun(start) => {
            if end - start < MOST_HELD {
                return barred(follows, why);
            }
            barred(follows, Refusal::entry_too_long(base + start))
        }
    }
}

// Where what is kept begins, behind the last whole character where nothing has begun.
fn kept_from(stands: Stands, whole: usize) -> usize
    ensures { result ≡ kept_from stands whole }
{
    match stands {
        Stands::Within(_) => whole,
        Stands::Begun(start) => start,
        Stands::Held(at) => at,
        Stands::Stopped(_) => whole,
    }
}

// What is open.
fn open_in(stands: Stands) -> Open
    ensures { result ≡ open_in stands }
{
    match stands {
        Stands::Within(o) => o,
        Stands::Begun(_) => Open::Clear,
        Stands::Held(_) => Open::Clear,
        Stands::Stopped(_) => Open::Clear,
    }
}

// The state behind a refusal.
fn stopped(taken: usize, former: usize, refusal: Refusal) -> Arrival
    ensures { result ≡ stopped_state taken former refusal }
{
    Arrival {
        taken,
        kept: 0,
        part: 0,
        former,
        gap: Open::Clear,
        refusal,
    }
}

// Where the last entry ends, given so many.
fn former_of(former: usize, count: usize, end: usize) -> usize
    ensures { result ≡ former_of former count end }
{
    if count == 0 {
        return former;
    }
    end
}

// A piece of n bytes, behind a state that is in order and not refused.
fn take_piece(state: Arrival, buffer: &mut [u8], n: usize, tape: &mut [u32]) -> Arrived
    requires { Fit state (length buffer.old) n }
    ensures { (result ≡ arrived_of (in_room (room_of (length tape.old)) (outcome_in state buffer.old n)))
        × (buffer.new ≡ kept_in (in_room (room_of (length tape.old)) (outcome_in state buffer.old n)) buffer.old)
        × (tape.new ≡ laid_in (in_room (room_of (length tape.old)) (outcome_in state buffer.old n)) tape.old) }
{
    let held = state.kept + n;
    let most = limit(&buffer[..held], state.taken, state.kept, state.part);
    let end = most.end;
    let gap = state.gap;
    let came = come(gap, &buffer[..end], state.kept, most.whole);
    let ran = came.ran;
    let stands = ran.stands;
    let count = ran.count;
    if row::room(&tape[..]) < count {
        return Arrived::Refused(Refusal::no_room());
    }
    let base = state.taken - state.kept;
    lay(&buffer[..end], came.from, tape, count, base, state.former);
    let why = most.why;
    let refusal = stop(stands, end, base, end < held, why);
    let former = former_of(state.former, count, base + ran.end);
    if refusal.number != 0 {
        return Arrived::Stopped(count, refusal, stopped(base + ran.bytes, former, refusal));
    }
    let from = kept_from(stands, most.whole);
    let kept = end - from;
    keep(buffer, from, kept);
    let next = Arrival {
        taken: base + end,
        kept,
        part: end - most.whole,
        former,
        gap: open_in(stands),
        refusal,
    };
    Arrived::Given(count, next)
}

// A piece of n bytes, which the host has put behind what is kept: the entries that it decides, onto the tape.
pub fn piece(state: Arrival, buffer: &mut [u8], n: usize, tape: &mut [u32]) -> Arrived
    ensures { (result ≡ arrived_of (piece_of state buffer.old n (room_of (length tape.old))))
        × (buffer.new ≡ kept_in (piece_of state buffer.old n (room_of (length tape.old))) buffer.old)
        × (tape.new ≡ laid_in (piece_of state buffer.old n (room_of (length tape.old))) tape.old) }
{
    if !fits(state, buffer.len(), n) {
        return Arrived::Refused(Refusal::not_in_order());
    }
    let refusal = state.refusal;
    if refusal.number != 0 {
        return Arrived::Stopped(0, refusal, state);
    }
    if n == 0 {
        return Arrived::Given(0, state);
    }
    take_piece(state, buffer, n, tape)
}
