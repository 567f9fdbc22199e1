// The answer of a read, and the entries of its tape.
ghost use Rattle.std.specs.Prelude.{◌≡◌, cond, [], ltb, length};
ghost use Rattle.lines.specs.Out.{put};
ghost use Rattle.rows.specs.Rows.{room_of, entry_at};
ghost use Rattle.show.specs.Answers.{answer_text};
ghost use Rattle.show.specs.Readings.{entry_text, tape_text, read_text};

use lines::out;
use rows::row;
use text::Refusal;

// An entry's numbers behind a separator, the gap last.
fn entry(o: &mut [u8], at: usize, tape: &[u32], i: usize, between: u8) -> usize
    ensures { (o.new, result) ≡ put (o.old, at)
        (cond (ltb i (room_of (length tape.now))) (entry_text between (entry_at tape.now i)) []) }
{
    if row::room(tape) <= i {
        return at;
    }
    let e = row::entry(tape, i);
    let a = out::byte(o, at, between);
    let b = out::number(o, a, e.kind as u64);
    let c = out::word(o, b, e.start as u64);
    let d = out::word(o, c, e.end as u64);
    let f = out::word(o, d, e.detail as u64);
    out::word(o, f, e.gap as u64)
}

// The first n entries of the tape.
pub fn entries(o: &mut [u8], at: usize, tape: &[u32], n: usize, between: u8) -> usize
    ensures { (o.new, result) ≡ put (o.old, at) (tape_text between tape.now n) }
{
    let mut to = at;
    for i in 0..n {
        to = entry(o, to, tape, i, between);
    }
    to
}

// How many entries, and these; the separator stands before each.
pub fn accepted(o: &mut [u8], at: usize, n: usize, tape: &[u32], between: u8) -> usize
    ensures { (o.new, result) ≡ put (o.old, at) (read_text between tape.now n) }
{
    let a = out::bytes(o, at, b"ok");
    let b = out::word(o, a, n as u64);
    entries(o, b, tape, n, between)
}

// These, or the refusal.
pub fn read(o: &mut [u8], at: usize, r: Result<usize, Refusal>, tape: &[u32], between: u8) -> usize
    ensures { (o.new, result) ≡ put (o.old, at) (answer_text (read_text between tape.now) r) }
{
    match r {
        Ok(n) => accepted(o, at, n, tape, between),
        Err(f) => crate::refused(o, at, f),
    }
}
