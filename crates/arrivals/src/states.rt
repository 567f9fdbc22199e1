// A state as nine numbers, `taken,part,gap,level,last,number,place,reason,former`, and the bytes that are kept.
ghost use Rattle.std.specs.Prelude.{◌≡◌};
ghost use Rattle.lines.specs.Out.{put};
ghost use Rattle.stored.specs.Numbers.{state_of};
ghost use Rattle.arrivals.specs.States.{spoken_by, item_text, three_text, open_text, state_text, bytes_text, stands_text};
ghost use Rattle.arrivals.specs.inner.Says.{leaves_text};

use gaps::Open;
use lines::out;
use pieces::state::{Arrival, Arrived};

// The state that a word says; or numbers that no state has; or the word is no state.
#[derive(Clone, Copy)]
pub enum Spoken {
    State(Arrival),
    Unfit,
    Bad,
}

// The state that nine numbers say, with so many bytes kept.
pub fn state_of(s: &[u32], kept: usize) -> Spoken
    ensures { result ≡ spoken_by (state_of s.now kept) }
{
    let said = stored::state_of(s, kept);
    match said {
        Some(a) => Spoken::State(a),
        None => Spoken::Unfit,
    }
}

// A number behind a comma.
fn item(o: &mut [u8], at: usize, n: u64) -> usize
    ensures { (o.new, result) ≡ put (o.old, at) (item_text n) }
{
    let a = out::byte(o, at, b',');
    out::number(o, a, n)
}

fn three(o: &mut [u8], at: usize, a: u64, b: u64, c: u64) -> usize
    ensures { (o.new, result) ≡ put (o.old, at) (three_text a b c) }
{
    let d = item(o, at, a);
    let e = item(o, d, b);
    item(o, e, c)
}

fn opened(o: &mut [u8], at: usize, gap: Open) -> usize
    ensures { (o.new, result) ≡ put (o.old, at) (open_text gap) }
{
    match gap {
        Open::Clear => three(o, at, 0, 0, 0),
        Open::Slash => three(o, at, 1, 0, 0),
        Open::Line => three(o, at, 2, 0, 0),
        Open::Block(level, last) => three(o, at, 3, level as u64, last as u64),
    }
}

fn state(o: &mut [u8], at: usize, s: Arrival) -> usize
    ensures { (o.new, result) ≡ put (o.old, at) (state_text s) }
{
    let gap = s.gap;
    let r = s.refusal;
    let a = out::number(o, at, s.taken as u64);
    let b = item(o, a, s.part as u64);
    let c = opened(o, b, gap);
    let d = three(o, c, r.number as u64, r.place as u64, r.reason as u64);
    item(o, d, s.former as u64)
}

// Bytes in hex, `-` for none.
fn bytes(o: &mut [u8], at: usize, s: &[u8]) -> usize
    ensures { (o.new, result) ≡ put (o.old, at) (bytes_text s.now) }
{
    if s.len() == 0 {
        return out::byte(o, at, b'-');
    }
    show::hex::bytes(o, at, s)
}

// A state and the bytes of the buffer that are kept.
fn stands(o: &mut [u8], at: usize, s: Arrival, buffer: &[u8]) -> usize
    ensures { (o.new, result) ≡ put (o.old, at) (stands_text s buffer.now) }
{
    let a = out::bytes(o, at, b" -> ");
    let b = state(o, a, s);
    let c = out::byte(o, b, b' ');
    bytes(o, c, lines::part(buffer, 0, s.kept))
}

// What a piece leaves; nothing where it was not taken.
pub fn left(o: &mut [u8], at: usize, r: Arrived, buffer: &[u8]) -> usize
    ensures { (o.new, result) ≡ put (o.old, at) (leaves_text r buffer.now) }
{
    match r {
        Arrived::Given(_, s) => stands(o, at, s, buffer),
        Arrived::Stopped(_, _, s) => stands(o, at, s, buffer),
        Arrived::Refused(_) => at,
    }
}
