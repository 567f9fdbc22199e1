// Contents and decoded of an entry: the view, then the decoding into a marked buffer.
ghost use Rattle.std.specs.Prelude.{◌≡◌, true, length};
ghost use Rattle.lines.specs.Out.{put};
ghost use Rattle.sarridok.specs.Contents.{part_of, decoded_answer};
ghost use Rattle.cases.specs.Contents.{wrote_of, view_text, decoding_text, both_text, buffer_after, most_for, room_for, contents_in};

use lent::bytes;
use lines::out;
use sarridok::Span;
use text::Refusal;

// What a line asks: an entry, the tape's count, and how many bytes the buffer has.
#[derive(Clone, Copy)]
pub struct Asked {
    pub entry: usize,
    pub count: usize,
    pub buffer: u64,
}

// Whether the part from the one call is what the other says.
fn agrees(view: Result<Span, Refusal>, text: &[u8], part: &[u8]) -> bool
    requires { part.now ≡ part_of text.now view }
    ensures { result ≡ true }
{
    match view {
        Ok(s) => check::same(part, lines::part(text, s.start, s.end)),
        Err(_) => part.len() == 0,
    }
}

fn written(r: Result<usize, Refusal>) -> usize
    ensures { result ≡ wrote_of r }
{
    r.unwrap_or(0)
}

// Whether the two calls for contents say the same of an entry.
fn calls_agree(text: &[u8], tape: &[u32], q: Asked) -> bool
    ensures { result ≡ true }
{
    let view = sarridok::contents(text, tape, q.count, q.entry);
    let part = sarridok::contents_part(text, tape, q.count, q.entry);
    agrees(view, text, part)
}

fn viewed(text: &[u8], tape: &[u32], q: Asked, o: &mut [u8], at: usize) -> usize
    ensures { (o.new, result) ≡ put (o.old, at) (view_text text.now tape.now q) }
{
    let view = sarridok::contents(text, tape, q.count, q.entry);
    let a = show::contents::view(o, at, view);
    out::bytes(o, a, b" | ")
}

// The decoding into a marked buffer.
fn decode(text: &[u8], tape: &[u32], q: Asked, buffer: &mut [u8]) -> Result<usize, Refusal>
    ensures result_value { result ≡ decoded_answer text.now tape.now q.count q.entry (length buffer.old) }
    ensures buffer_after { buffer.new ≡ buffer_after text.now tape.now q buffer.old }
{
    bytes::mark(buffer);
    sarridok::decoded(text, tape, q.count, q.entry, buffer)
}

// What the decoding says, and whether it left all marks behind what it wrote.
fn decoding(r: Result<usize, Refusal>, buffer: &[u8], o: &mut [u8], at: usize) -> usize
    ensures { (o.new, result) ≡ put (o.old, at) (decoding_text buffer.now r) }
{
    let a = show::contents::decoded(o, at, r, buffer);
    let clean = bytes::kept(buffer, written(r));
    show::clean(o, a, clean)
}

fn both(text: &[u8], tape: &[u32], q: Asked, buffer: &mut [u8], o: &mut [u8], at: usize) -> usize
    ensures { ((o.new, result) ≡ put (o.old, at) (both_text text.now tape.now q buffer.old))
        × (buffer.new ≡ buffer_after text.now tape.now q buffer.old) }
{
    let a = viewed(text, tape, q, o, at);
    let r = decode(text, tape, q, buffer);
    let b = decoding(r, &buffer[..], o, a);
    if calls_agree(text, tape, q) {
        return b;
    }
    show::clean(o, b, false)
}

// As many bytes as a text can fill, and a few behind them.
#[tactic(auto, unfolding(crate::specs::Contents::most_for))]
fn most_for(text: usize) -> usize
    ensures { result ≡ most_for text }
{
    text.min(65536) + 16
}

// A buffer of so many bytes, but no more than that.
#[tactic(auto, unfolding(crate::specs::Contents::room_for))]
fn room(buffer: u64, text: usize) -> usize
    ensures { result ≡ room_for buffer text }
{
    buffer.min(most_for(text) as u64) as usize
}

// The buffer is lent from the spare bytes.
pub fn answer(
    text: &[u8],
    tape: &[u32],
    q: Asked,
    spare: &mut [u8],
    o: &mut [u8],
    at: usize,
) -> usize
    ensures { ((o.new, result) ≡ put (o.old, at) (contents_in text.now tape.now q spare.old).0)
        × (spare.new ≡ (contents_in text.now tape.now q spare.old).1) }
{
    let n = room(q.buffer, text.len());
    if n < spare.len() {
        return both(text, tape, q, &mut spare[0..n], o, at);
    }
    both(text, tape, q, spare, o, at)
}
