// `q CUTS HEX`: a text that arrives in pieces of these lengths, the rest last, and then its end, with room enough.
ghost use Rattle.std.specs.Prelude.{◌+◌, ◌≤◌, [], ◌++◌, ◌≡◌, leb, length, take, drop};
ghost use Rattle.lines.specs.Ascii.{ascii};
ghost use Rattle.lines.specs.Out.{put};
ghost use Rattle.lines.specs.Over.{over};
ghost use Rattle.pieces.specs.Ends.{finish_of};
ghost use Rattle.pieces.specs.Pieces.{begun, kept_in, piece_of};
ghost use Rattle.rows.specs.Rows.{room_of};
ghost use Rattle.arrivals.specs.Arrives.{piece_text, end_text, next_of};
ghost use Rattle.arrivals.specs.Texts.{sum_of, pieces_of, answers_from, text_line};
ghost use Rattle.arrivals.specs.inner.Stands.{next_by, said_text, Turned};

use crate::said;
use lines::out;
use pieces::state::{Arrival, Arrived};
use words::{hex, list};

// The state behind a piece, and the place in the output.
#[derive(Clone, Copy)]
struct Next {
    state: Arrival,
    at: usize,
}

// Between two pieces: the state, how many bytes are kept at the front, where the rest of the text begins, and the place in the output.
#[derive(Clone, Copy)]
struct Stand {
    state: Arrival,
    kept: usize,
    from: usize,
    at: usize,
}

// Whether lengths are no more together than so many.
fn fit(cuts: &[u32], n: usize) -> bool
    ensures { result ≡ leb (sum_of cuts.now) n }
{
    let mut left = n;
    for cut in cuts {
        let k = *cut as usize;
        if left < k {
            return false;
        }
        left -= k;
    }
    true
}

// So many bytes from a place on to the front.
fn shift(s: &mut [u8], from: usize, n: usize)
    requires { from + n ≤ length s.old }
    ensures { s.new ≡ over (take n (drop from s.old)) s.old }
{
    s.copy_within(from..from + n, 0);
}

// The state behind a piece: as it was where the piece was not taken.
fn behind(s: Arrival, r: Arrived) -> Arrival
    ensures { result ≡ next_by s r }
{
    match r {
        Arrived::Given(_, a) => a,
        Arrived::Stopped(_, _, a) => a,
        Arrived::Refused(_) => s,
    }
}

// The last n bytes of the buffer are a piece; another answer follows.
fn piece(s: Arrival, buffer: &mut [u8], n: usize, tape: &mut [u32], o: &mut [u8], at: usize) -> Next
    ensures at_after { (o.new, result.at) ≡ put (o.old, at)
        (piece_text (piece_of s buffer.old n (room_of (length tape.old))) ++ ascii " | ") }
    ensures state_value { result.state ≡ next_of s (piece_of s buffer.old n (room_of (length tape.old))) }
    ensures buffer_after { buffer.new ≡ kept_in (piece_of s buffer.old n (room_of (length tape.old))) buffer.old }
{
    let r = pieces::piece::piece(s, buffer, n, tape);
    let a = said::arrived(o, at, r, &tape[..]);
    Next {
        state: behind(s, r),
        at: out::bytes(o, a, b" | "),
    }
}

// The next n bytes of the text behind those that are kept, and the piece that they are.
fn turn(s: Stand, n: usize, text: &mut [u8], tape: &mut [u32], o: &mut [u8]) -> Stand
    requires { (s.kept ≤ s.from) × (s.from + n ≤ length text.old) }
    ensures at_after { (o.new, result.at) ≡ put (o.old, s.at) (said_text s n text.old (room_of (length tape.old))) }
    ensures turned { Turned s n text.old (room_of (length tape.old)) result text.new }
{
    let kept = s.kept;
    let held = kept + n;
    let from = s.from + n;
    shift(&mut text[kept..], s.from - kept, n);
    let state = s.state;
    let r = piece(state, &mut text[0..held], n, tape, o, s.at);
    let left = r.state;
    Stand {
        state: left,
        kept: lines::least(left.kept, held),
        from,
        at: r.at,
    }
}

// The pieces of the first n bytes, one after another, and the end.
fn pieces(
    cuts: &[u32],
    n: usize,
    text: &mut [u8],
    tape: &mut [u32],
    o: &mut [u8],
    at: usize,
) -> usize
    requires { (sum_of cuts.now ≤ n) × (n ≤ length text.old) }
    ensures { (o.new, result) ≡ put (o.old, at)
        (answers_from (pieces_of cuts.now (take n text.old)) begun [] (room_of (length tape.old))) }
{
    let mut s = Stand {
        state: pieces::state::begin(),
        kept: 0,
        from: 0,
        at,
    };
    for cut in cuts {
        s = turn(s, *cut as usize, text, tape, o);
    }
    let rest = turn(s, n - s.from, text, tape, o);
    end(rest, &text[..], tape, o)
}

// The end, behind the last piece.
fn end(s: Stand, text: &[u8], tape: &mut [u32], o: &mut [u8]) -> usize
    ensures { (o.new, result) ≡ put (o.old, s.at)
        (end_text (finish_of s.state (take s.kept text.now) (room_of (length tape.old)))) }
{
    let state = s.state;
    let r = pieces::finish::finish(state, lines::part(text, 0, s.kept), tape);
    said::ended(o, s.at, r, &tape[..])
}

// `bad` where the line is no case, else an answer for each piece and one for the end.
pub fn answer(
    words: &[u8],
    text: &mut [u8],
    tape: &mut [u32],
    links: &mut [u32],
    o: &mut [u8],
    at: usize,
) -> usize
    ensures { (o.new, result) ≡ put (o.old, at)
        (text_line words.now (length text.old) (length tape.old) (length links.old)) }
{
    let Some(k) = list::numbers(words::word(words), links) else {
        return show::bad(o, at);
    };
    let cuts = list::first(&links[..], k);
    let Some(n) = hex::bytes(words::behind(words), text) else {
        return show::bad(o, at);
    };
    if !fit(cuts, n) {
        return show::bad(o, at);
    }
    pieces(cuts, n, text, tape, o, at)
}
