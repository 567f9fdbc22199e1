// The integers of a list into two marked buffers.
ghost use Rattle.std.specs.Prelude.{◌≡◌, length, take};
ghost use Rattle.lines.specs.Out.{put};
ghost use Rattle.sarridok.specs.Integers.{done, integers_of};
ghost use Rattle.lists.specs.Listed.{buffers_left, both_kept, called_text, list_text, most_for, room_for, list_in};

use lent::{bytes, magnitudes};
use text::Refusal;

// What a line asks: how long the two buffers are, and how many entries the tape has.
#[derive(Clone, Copy)]
pub struct Asked {
    pub magnitudes: usize,
    pub codes: usize,
    pub count: usize,
}

// The first numbers, as far as there are any.
fn first(s: &[u64], n: usize) -> &[u64]
    ensures { result.now ≡ take n s.now }
{
    &s[..n.min(s.len())]
}

// Whether both buffers still have their marks from a place on.
fn both_kept(magnitudes: &[u64], codes: &[u8], from: usize) -> bool
    ensures { result ≡ both_kept from (magnitudes.now, codes.now) }
{
    if !magnitudes::kept(magnitudes, from) {
        return false;
    }
    bytes::kept(codes, from)
}

// The call, with both buffers marked before it.
fn call(
    text: &[u8],
    tape: &[u32],
    count: usize,
    items: &[u32],
    magnitudes: &mut [u64],
    codes: &mut [u8],
) -> Result<(), Refusal>
    ensures result_value { result ≡ done (integers_of text.now tape.now count items.now
        (length magnitudes.old) (length codes.old)) }
    ensures codes_after { (magnitudes.new, codes.new) ≡ buffers_left text.now tape.now count items.now
        magnitudes.old codes.old }
{
    magnitudes::mark(magnitudes);
    bytes::mark(codes);
    sarridok::integers(text, tape, count, items, magnitudes, codes)
}

// What the call says of a list of n, read off the buffers; a refused call may change neither, an accepted one nothing behind the list's length.
fn said(
    r: Result<(), Refusal>,
    n: usize,
    magnitudes: &[u64],
    codes: &[u8],
    o: &mut [u8],
    at: usize,
) -> usize
    ensures { (o.new, result) ≡ put (o.old, at) (called_text r n (magnitudes.now, codes.now)) }
{
    match r {
        Ok(()) => {
            let a = show::many::integers(o, at, first(magnitudes, n), lines::part(codes, 0, n));
            show::clean(o, a, both_kept(magnitudes, codes, n))
        }
        Err(f) => {
            let a = show::refused(o, at, f);
            show::clean(o, a, both_kept(magnitudes, codes, 0))
        }
    }
}

fn listed(
    text: &[u8],
    tape: &[u32],
    count: usize,
    items: &[u32],
    magnitudes: &mut [u64],
    codes: &mut [u8],
    o: &mut [u8],
    at: usize,
) -> usize
    ensures result_after { (o.new, result) ≡ put (o.old, at) (list_text text.now tape.now count items.now
        magnitudes.old codes.old) }
    ensures codes_after { (magnitudes.new, codes.new) ≡ buffers_left text.now tape.now count items.now
        magnitudes.old codes.old }
{
    let r = call(text, tape, count, items, magnitudes, codes);
    said(r, items.len(), &magnitudes[..], &codes[..], o, at)
}

// As many as a list has, and a few behind them.
#[tactic(auto, unfolding(crate::specs::Listed::most_for))]
pub fn most_for(items: usize) -> usize
    ensures { result ≡ most_for items }
{
    lines::least(items, 65536) + 16
}

// A buffer of so many, but no more than that, nor than there are.
#[tactic(auto, unfolding(crate::specs::Listed::room_for))]
fn room(asked: usize, items: usize, there: usize) -> usize
    ensures { result ≡ room_for asked items there }
{
    lines::least(lines::least(asked, most_for(items)), there)
}

// The magnitudes are lent from the numbers, the codes from the spare bytes.
pub fn answer(
    text: &[u8],
    tape: &[u32],
    q: Asked,
    items: &[u32],
    numbers: &mut [u64],
    spare: &mut [u8],
    o: &mut [u8],
    at: usize,
) -> usize
    ensures result_after { (o.new, result) ≡ put (o.old, at)
        (list_in text.now tape.now q items.now numbers.old spare.old).0 }
    ensures spare_after { (numbers.new, spare.new)
        ≡ (list_in text.now tape.now q items.now numbers.old spare.old).1 }
{
    let n = items.len();
    let m = room(q.magnitudes, n, numbers.len());
    let k = room(q.codes, n, spare.len());
    listed(
        text,
        tape,
        q.count,
        items,
        &mut numbers[0..m],
        &mut spare[0..k],
        o,
        at,
    )
}
