// What a call gives, as lines: an entry's five numbers on each, and the refusal last.
ghost use Rattle.std.specs.Prelude.{cond, [], ◌≡◌, ltb, length};
ghost use Rattle.lines.specs.Out.{put};
ghost use Rattle.rows.specs.Rows.{entry_at, room_of};
ghost use Rattle.arrive.specs.Printed.{line_text, refusal_text};
ghost use Rattle.arrive.specs.inner.Said.{ended_text, stopped_text, tape_lines, without_state};

use lines::out;
use rows::{Entry, row};
use sarridok::{Arrived, Ended};
use text::Refusal;

// An entry's line.
fn line(o: &mut [u8], at: usize, e: Entry) -> usize
    ensures { (o.new, result) ≡ put (o.old, at) (line_text e) }
{
    let a = out::number(o, at, e.kind as u64);
    let b = out::word(o, a, e.start as u64);
    let c = out::word(o, b, e.end as u64);
    let d = out::word(o, c, e.detail as u64);
    let f = out::word(o, d, e.gap as u64);
    out::byte(o, f, b'\n')
}

// The line of row i, if there is one.
fn row_line(o: &mut [u8], at: usize, tape: &[u32], i: usize) -> usize
    ensures { (o.new, result) ≡ put (o.old, at)
        (cond (ltb i (room_of (length tape.now))) (line_text (entry_at tape.now i)) []) }
{
    if row::room(tape) <= i {
        return at;
    }
    line(o, at, row::entry(tape, i))
}

// The lines of the first n entries of the tape.
fn entries(o: &mut [u8], at: usize, tape: &[u32], n: usize) -> usize
    ensures { (o.new, result) ≡ put (o.old, at) (tape_lines tape.now n) }
{
    let mut to = at;
    for i in 0..n {
        to = row_line(o, to, tape, i);
    }
    to
}

// A refusal's line.
fn refused(o: &mut [u8], at: usize, r: Refusal) -> usize
    ensures { (o.new, result) ≡ put (o.old, at) (refusal_text r) }
{
    let a = show::placed(o, at, r);
    out::byte(o, a, b'\n')
}

// Entries, and a refusal behind them.
fn stopped(o: &mut [u8], at: usize, n: usize, r: Refusal, tape: &[u32]) -> usize
    ensures { (o.new, result) ≡ put (o.old, at) (stopped_text n r tape.now) }
{
    let a = entries(o, at, tape, n);
    refused(o, a, r)
}

// What the end of the text comes to.
pub fn ended(o: &mut [u8], at: usize, r: Ended, tape: &[u32]) -> usize
    ensures { (o.new, result) ≡ put (o.old, at) (ended_text r tape.now) }
{
    match r {
        Ended::Given(n) => entries(o, at, tape, n),
        Ended::Stopped(n, f) => stopped(o, at, n, f, tape),
        Ended::Refused(f) => refused(o, at, f),
    }
}

// What a piece comes to, without the state behind it: the same is printed of it.
fn without_state(r: Arrived) -> Ended
    ensures { result ≡ without_state r }
{
    match r {
        Arrived::Given(n, _) => Ended::Given(n),
        Arrived::Stopped(n, f, _) => Ended::Stopped(n, f),
        Arrived::Refused(f) => Ended::Refused(f),
    }
}

// What a piece comes to.
pub fn arrived(o: &mut [u8], at: usize, r: Arrived, tape: &[u32]) -> usize
    ensures { (o.new, result) ≡ put (o.old, at) (ended_text (without_state r) tape.now) }
{
    ended(o, at, without_state(r), tape)
}
