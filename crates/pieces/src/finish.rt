// The call `finish`: the rest of a text that has ended.
ghost use Rattle.std.specs.Prelude.{◌≡◌, true, ◌+◌, ◌≤◌, ◌<◌, length, take};
ghost use Rattle.rows.specs.Rows.{room_of};
ghost use Rattle.pieces.specs.Ends.{ended_of, finish_of, fitting, rest_laid};
ghost use Rattle.pieces.specs.inner.Lasts.{Fits, ended_by, ends_with, last_from, rest_in};

use crate::lay::lay;
use crate::order::fits;
use crate::scan::scan;
use crate::state::{Arrival, Ended};
use gaps::{Open, Passed, pass_gap};
use read::scanned::Scanned;
use rows::row;
use text::Refusal;
use text::refusal::placed_behind;

// How a text ends inside a gap, at a place.
fn ends_in(left: Open, end: usize) -> Ended
    ensures { result ≡ ends_with left end }
{
    match left {
        Open::Clear => Ended::Given(0),
        Open::Slash => Ended::Stopped(0, Refusal::eof(end)),
        Open::Line => Ended::Given(0),
        Open::Block(_, _) => Ended::Stopped(0, Refusal::unclosed_block_comment(end)),
    }
}

// So many entries, and a refusal behind them. That a reader's refusal has a number is not known here, and the answer is told by it.
fn ended_with(count: usize, refusal: Refusal) -> Ended
    ensures { result ≡ ended_by count refusal }
{
    if refusal.number == 0 {
        return Ended::Given(count);
    }
    Ended::Stopped(count, refusal)
}

// The entries of what is kept, from where a token begins.
fn last_entries(state: Arrival, s: &[u8], from: usize, tape: &mut [u32]) -> Ended
    requires { Fits state (length s.now) from }
    ensures { (result ≡ ended_of (fitting (room_of (length tape.old)) (last_from state s.now from)))
        × (tape.new ≡ rest_laid (fitting (room_of (length tape.old)) (last_from state s.now from)) tape.old) }
{
    let all = scan(&s[from..]);
    if row::room(&tape[..]) < all.count {
        return Ended::Refused(Refusal::no_room());
    }
    let base = state.taken - state.kept;
    lay(s, from, tape, all.count, base, state.former);
    let ending = all.ending;
    match ending {
        Ok(()) => Ended::Given(all.count),
        Err(refusal) => ended_with(all.count, placed_behind(refusal, base + from)),
    }
}

// The rest of a state that is in order and not refused.
fn rest(state: Arrival, s: &[u8], tape: &mut [u32]) -> Ended
    requires { Fits state (length s.now) 0 }
    ensures { (result ≡ ended_of (fitting (room_of (length tape.old)) (rest_in state s.now)))
        × (tape.new ≡ rest_laid (fitting (room_of (length tape.old)) (rest_in state s.now)) tape.old) }
{
    if 0 < state.part {
        return Ended::Stopped(0, Refusal::not_utf8(state.taken - state.part));
    }
    let gap = state.gap;
    let passed = pass_gap(gap, s);
    match passed {
        Passed::Begins(k) => last_entries(state, s, k, tape),
        Passed::Within(o) => ends_in(o, state.taken),
        Passed::Unexpected(p) => Ended::Stopped(
            0,
            Refusal::unexpected_char(state.taken - state.kept + p),
        ),
    }
}

// The end of the text: the entries of what is kept, onto the tape.
pub fn finish(state: Arrival, buffer: &[u8], tape: &mut [u32]) -> Ended
    ensures { (result ≡ ended_of (finish_of state buffer.now (room_of (length tape.old))))
        × (tape.new ≡ rest_laid (finish_of state buffer.now (room_of (length tape.old))) tape.old) }
{
    if !fits(state, buffer.len(), 0) {
        return Ended::Refused(Refusal::not_in_order());
    }
    let refusal = state.refusal;
    if refusal.number != 0 {
        return Ended::Stopped(0, refusal);
    }
    let kept = state.kept;
    rest(state, &buffer[..kept], tape)
}
