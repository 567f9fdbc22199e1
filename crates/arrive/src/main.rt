// A RON text on standard input, as it arrives: each entry is printed as soon as it is decided, and a refusal last.
#![tactic(auto)]

mod said;

ghost use Rattle.std.specs.Prelude.{false, ◌≡◌, length};
ghost use Rattle.lines.specs.Out.{put};
ghost use Rattle.pieces.specs.Ends.{finish_of, rest_laid};
ghost use Rattle.pieces.specs.Pieces.{kept_in, laid_in, piece_of};
ghost use Rattle.rows.specs.Rows.{room_of};
ghost use Rattle.arrive.specs.Printed.{end_text, goes_on, next_of, piece_text};
ghost use Rattle.arrive.specs.inner.Said.{next_by, on_by};
ghost use Rattle.arrive.specs.inner.Turns.{Turned, behind_piece, end_output, piece_output};

use lines::{input, out};
use sarridok::{Arrival, Arrived};
use std::io::Stdin;

// Between two readings of the input: the state, and whether there is more to do.
#[derive(Clone, Copy)]
struct Standing {
    state: Arrival,
    on: bool,
}

// What a piece comes to: the state behind it, whether the text goes on, and where the lines end in the output.
#[derive(Clone, Copy)]
struct Next {
    state: Arrival,
    on: bool,
    at: usize,
}

// The state behind a piece: as it was where the piece was not taken.
fn behind(s: Arrival, r: Arrived) -> Arrival
    ensures { result ≡ next_by s r }
{
    match r {
        Arrived::Given(_, a) => a,
        Arrived::Stopped(_, _, a) => a,
        Arrived::Refused(_) => s,
    }
}

// Whether nothing was refused.
fn goes_on(r: Arrived) -> bool
    ensures { result ≡ on_by r }
{
    match r {
        Arrived::Given(_, _) => true,
        Arrived::Stopped(_, _, _) => false,
        Arrived::Refused(_) => false,
    }
}

// The n bytes behind what is kept, as a piece: its lines, from the front of the output on.
fn piece(s: Arrival, buf: &mut [u8], n: usize, tape: &mut [u32], o: &mut [u8]) -> Next
    ensures { ((o.new, result.at) ≡ put (o.old, 0) (piece_text (piece_of s buf.old n (room_of (length tape.old)))))
        × (result.state ≡ next_of s (piece_of s buf.old n (room_of (length tape.old))))
        × (result.on ≡ goes_on (piece_of s buf.old n (room_of (length tape.old))))
        × (buf.new ≡ kept_in (piece_of s buf.old n (room_of (length tape.old))) buf.old)
        × (tape.new ≡ laid_in (piece_of s buf.old n (room_of (length tape.old))) tape.old) }
{
    let r = sarridok::piece(s, buf, n, tape);
    let at = said::arrived(o, 0, r, &tape[..]);
    Next {
        state: behind(s, r),
        on: goes_on(r),
        at,
    }
}

// The end of the text: the lines that are left, from the front of the output on.
fn end(s: Arrival, buf: &[u8], tape: &mut [u32], o: &mut [u8]) -> usize
    ensures { ((o.new, result) ≡ put (o.old, 0) (end_text (finish_of s buf.now (room_of (length tape.old)))))
        × (tape.new ≡ rest_laid (finish_of s buf.now (room_of (length tape.old))) tape.old) }
{
    let r = sarridok::finish(s, buf, tape);
    said::ended(o, 0, r, &tape[..])
}

// The input has ended.
fn last(s: Arrival, buf: &[u8], tape: &mut [u32], o: &mut [u8]) -> Standing
    ensures { (result ≡ record { state = s; on = false })
        × (o.new ≡ end_output o.old (finish_of s buf.now (room_of (length tape.old))))
        × (tape.new ≡ rest_laid (finish_of s buf.now (room_of (length tape.old))) tape.old) }
{
    let at = end(s, buf, tape, o);
    out::flush(&o[..], at);
    Standing {
        state: s,
        on: false,
    }
}

// So many bytes have come. Their lines are written before more is waited for, and behind a refusal the rest is only read, so that whoever writes is not cut off.
fn more(s: Arrival, buf: &mut [u8], n: usize, tape: &mut [u32], o: &mut [u8]) -> Standing
    ensures { (result ≡ behind_piece s (piece_of s buf.old n (room_of (length tape.old))))
        × (o.new ≡ piece_output o.old (piece_of s buf.old n (room_of (length tape.old))))
        × (buf.new ≡ kept_in (piece_of s buf.old n (room_of (length tape.old))) buf.old)
        × (tape.new ≡ laid_in (piece_of s buf.old n (room_of (length tape.old))) tape.old) }
{
    let r = piece(s, buf, n, tape, o);
    out::flush(&o[..], r.at);
    let state = r.state;
    if r.on {
        return Standing { state, on: true };
    }
    input::drain();
    Standing { state, on: false }
}

// One reading of the input, behind what is kept.
fn turn(stdin: Stdin, was: Standing, buf: &mut [u8], tape: &mut [u32], o: &mut [u8]) -> Standing
    ensures { Turned was.state buf.old buf.new (room_of (length tape.old)) result }
{
    let s = was.state;
    let i = input::more(stdin, buf, 0, s.kept);
    if i.ended {
        return last(s, &buf[..], tape, o);
    }
    more(s, buf, i.to - s.kept, tape, o)
}

// A proved loop has to end, and nothing says that the input does: the turns are counted up to a number that no run comes to.
fn run(stdin: Stdin, buf: &mut [u8], tape: &mut [u32], o: &mut [u8]) {
    let mut s = Standing {
        state: sarridok::begin(),
        on: true,
    };
    for _ in 0..u64::MAX {
        s = turn(stdin, s, buf, tape, o);
        if !s.on {
            return;
        }
    }
}

// The arrays are lent as arrays first: then no proof computes their lengths.
fn lend(stdin: Stdin, buf: &mut [u8; 8192], tape: &mut [u32; 40960], o: &mut [u8; 16384]) {
    run(stdin, buf, tape, o);
}

// No more than 4,096 bytes are kept, so that as many can come at once; and no more entries are given than there are bytes, so that the tape has room.
fn main(rt: HostRuntime) {
    let mut buf = [0u8; 8192];
    let mut tape = [0u32; 40960];
    let mut o = [0u8; 16384];
    lend(rt.stdin(), &mut buf, &mut tape, &mut o);
}
