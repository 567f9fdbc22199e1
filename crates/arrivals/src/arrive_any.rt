// `Q NUMBERS STATE KEPT PIECE`: one call over any state, with a tape of so many numbers.
ghost use Rattle.std.specs.Prelude.{◌+◌, ◌-◌, ◌≤◌, ◌++◌, ◌≡◌, length, take, drop};
ghost use Rattle.lines.specs.Out.{put};
ghost use Rattle.lines.specs.Over.{over};
ghost use Rattle.pieces.specs.Ends.{finish_of};
ghost use Rattle.rows.specs.Rows.{room_of};
ghost use Rattle.words.specs.Hex.{pairs};
ghost use Rattle.arrivals.specs.Arrives.{end_text};
ghost use Rattle.arrivals.specs.Any.{is_end, last_of, spoken_of, piece_line, unfit_text, room_for, state_line, any_line};
ghost use Rattle.arrivals.specs.inner.Calls.{Holds, called_text};

use crate::states::Spoken;
use crate::{said, states};
use lent::numbers;
use pieces::state::Arrival;
use text::Refusal;
use words::{hex, list, number};

// What the last word says: a piece of so many bytes, the end of the text, or the line is no case.
#[derive(Clone, Copy)]
enum Last {
    Piece(usize),
    End,
    Bad,
}

fn is_end(s: &[u8]) -> bool
    ensures { result ≡ is_end s.now }
{
    s == b"end".as_slice()
}

// The bytes that the last word says, behind the first k.
fn last_of(word: &[u8], k: usize, text: &mut [u8]) -> Last
    requires { k ≤ length text.old }
    ensures value { result ≡ last_of word.now (length text.old - k) }
    ensures text_after { text.new ≡ take k text.old ++ over (pairs word.now) (drop k text.old) }
{
    if let Some(n) = hex::bytes(word, &mut text[k..]) {
        return Last::Piece(n);
    }
    if is_end(word) {
        return Last::End;
    }
    Last::Bad
}

// The state that a word says, its numbers to the front of the tape.
fn spoken(word: &[u8], kept: usize, tape: &mut [u32]) -> Spoken
    ensures { result ≡ spoken_of word.now kept (length tape.old) }
{
    let Some(n) = list::numbers(word, tape) else {
        return Spoken::Bad;
    };
    let numbers = list::first(&tape[..], n);
    if numbers.len() != 9 {
        return Spoken::Bad;
    }
    states::state_of(numbers, kept)
}

// The last n bytes of the buffer are a piece. The tape is marked first, and what the call may not change is held against its marks.
fn piece(
    s: Arrival,
    buffer: &mut [u8],
    n: usize,
    tape: &mut [u32],
    o: &mut [u8],
    at: usize,
) -> usize
    ensures { (o.new, result) ≡ put (o.old, at) (piece_line s buffer.old n (room_of (length tape.old))) }
{
    numbers::mark(tape);
    let r = pieces::piece::piece(s, buffer, n, tape);
    let a = said::arrived(o, at, r, &tape[..]);
    let b = states::left(o, a, r, &buffer[..]);
    show::clean(o, b, said::arrived_clean(r, &tape[..]))
}

// The bytes that are kept are all that there is; the tape is marked as for a piece.
fn end(s: Arrival, buffer: &[u8], tape: &mut [u32], o: &mut [u8], at: usize) -> usize
    ensures { (o.new, result) ≡ put (o.old, at) (end_text (finish_of s buffer.now (room_of (length tape.old)))) }
{
    numbers::mark(tape);
    let r = pieces::finish::finish(s, buffer, tape);
    let a = said::ended(o, at, r, &tape[..]);
    show::clean(o, a, said::ended_clean(r, &tape[..]))
}

// The call over a state of which the first k bytes are kept.
fn call(
    s: Arrival,
    last: Last,
    k: usize,
    text: &mut [u8],
    tape: &mut [u32],
    o: &mut [u8],
    at: usize,
) -> usize
    requires { Holds last k (length text.old) }
    ensures { (o.new, result) ≡ put (o.old, at) (called_text last s k text.old (room_of (length tape.old))) }
{
    match last {
        Last::Piece(n) => {
            let held = k + n;
            piece(s, &mut text[0..held], n, tape, o, at)
        }
        Last::End => end(s, lines::part(&text[..], 0, k), tape, o, at),
        Last::Bad => show::bad(o, at),
    }
}

// The tape has so many numbers, or all that are there.
fn lent(
    room: usize,
    s: Arrival,
    last: Last,
    k: usize,
    text: &mut [u8],
    tape: &mut [u32],
    o: &mut [u8],
    at: usize,
) -> usize
    requires { Holds last k (length text.old) }
    ensures { (o.new, result) ≡ put (o.old, at) (called_text last s k text.old (room_for room (length tape.old))) }
{
    let m = lines::least(room, tape.len());
    call(s, last, k, text, &mut tape[0..m], o, at)
}

// Numbers that no state has are 23, where the last word says a call.
fn unfit(last: Last, o: &mut [u8], at: usize) -> usize
    ensures { (o.new, result) ≡ put (o.old, at) (unfit_text last) }
{
    match last {
        Last::Piece(_) => show::refused(o, at, Refusal::not_in_order()),
        Last::End => show::refused(o, at, Refusal::not_in_order()),
        Last::Bad => show::bad(o, at),
    }
}

// `STATE KEPT PIECE`: the bytes go one behind the other.
fn over_state(
    room: usize,
    words: &[u8],
    text: &mut [u8],
    tape: &mut [u32],
    o: &mut [u8],
    at: usize,
) -> usize
    ensures { (o.new, result) ≡ put (o.old, at)
        (state_line room words.now (length text.old) (length tape.old)) }
{
    let two = words::behind(words);
    let Some(k) = hex::bytes(words::word(two), text) else {
        return show::bad(o, at);
    };
    let last = last_of(words::behind(two), k, text);
    let spoken = spoken(words::word(words), k, tape);
    match spoken {
        Spoken::State(s) => lent(room, s, last, k, text, tape, o, at),
        Spoken::Unfit => unfit(last, o, at),
        Spoken::Bad => show::bad(o, at),
    }
}

// `bad` where the line is no case, else what the call says and leaves.
pub fn answer(words: &[u8], text: &mut [u8], tape: &mut [u32], o: &mut [u8], at: usize) -> usize
    ensures { (o.new, result) ≡ put (o.old, at)
        (any_line words.now (length text.old) (length tape.old)) }
{
    let Some(numbers) = number::decimal_of(words::word(words)) else {
        return show::bad(o, at);
    };
    over_state(numbers as usize, words::behind(words), text, tape, o, at)
}
