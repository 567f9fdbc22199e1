// `P COUNT OLDLEN A B HEX N,N,..`: a repair of any tape. Accepted, every number of the slice is shown.
ghost use Rattle.std.specs.Prelude.{◌≡◌, take, drop};
ghost use Rattle.lines.specs.Over.{over};
ghost use Rattle.lines.specs.Out.{put};
ghost use Rattle.edits.specs.Repairs.{told_of, tape_after, any_text, repair_in, front_of, any_line};

use crate::cuts::Cut;
use lent::copies;
use words::{hex, list, number};

// What the first four words ask; none where the line is no case.
fn front(words: &[u8]) -> Option<Cut>
    ensures { result ≡ front_of words.now }
{
    let count = number::decimal_of(words::word(words))?;
    let words = words::behind(words);
    let old = number::decimal_of(words::word(words))?;
    let words = words::behind(words);
    let a = number::decimal_of(words::word(words))?;
    let b = number::decimal_of(words::word(words::behind(words)))?;
    Some(Cut {
        count: count as usize,
        old: old as usize,
        a: a as usize,
        b: b as usize,
    })
}

// A refused repair may change no number.
fn repaired(
    text: &[u8],
    q: Cut,
    tape: &mut [u32],
    aside: &mut [u32],
    o: &mut [u8],
    at: usize,
) -> usize
    ensures { ((o.new, result) ≡ put (o.old, at)
        (any_text (told_of tape.old q text.now) (tape_after tape.old q text.now)
        (over tape.old aside.old)))
        × (tape.new ≡ tape_after tape.old q text.now)
        × (aside.new ≡ over tape.old aside.old) }
{
    copies::copy(&tape[..], aside);
    let r = sarridok::repair(tape, q.count, q.old, q.a, q.b, text);
    match r {
        Ok(p) => {
            let a = show::of_repair::counts(o, at, p.count, p.before, p.behind);
            show::of_repair::numbers(o, a, &tape[..])
        }
        Err(f) => {
            let a = show::refused(o, at, f);
            show::clean(o, a, copies::same(&tape[..], &aside[..]))
        }
    }
}

// The tape is lent with as many numbers as the line has.
fn lent(
    text: &[u8],
    q: Cut,
    k: usize,
    tape: &mut [u32],
    aside: &mut [u32],
    o: &mut [u8],
    at: usize,
) -> usize
    ensures { ((o.new, result) ≡ put (o.old, at)
        (repair_in text.now q (take k tape.old) (drop k tape.old) aside.old).0)
        × (tape.new ≡ (repair_in text.now q (take k tape.old) (drop k tape.old) aside.old).1)
        × (aside.new ≡ (repair_in text.now q (take k tape.old) (drop k tape.old) aside.old).2) }
{
    if k < tape.len() {
        return repaired(text, q, &mut tape[0..k], aside, o, at);
    }
    repaired(text, q, tape, aside, o, at)
}

// The tape is copied aside first, so that a refused repair can be held against it.
pub fn answer(
    words: &[u8],
    text: &mut [u8],
    tape: &mut [u32],
    aside: &mut [u32],
    o: &mut [u8],
    at: usize,
) -> usize
    ensures { ((o.new, result) ≡ put (o.old, at)
        (any_line words.now text.old tape.old aside.old).0)
        × (text.new ≡ (any_line words.now text.old tape.old aside.old).1)
        × (tape.new ≡ (any_line words.now text.old tape.old aside.old).2)
        × (aside.new ≡ (any_line words.now text.old tape.old aside.old).3) }
{
    let Some(q) = front(words) else {
        return show::bad(o, at);
    };
    let words = words::behind(words::behind(words::behind(words::behind(words))));
    let Some(n) = hex::bytes(words::word(words), text) else {
        return show::bad(o, at);
    };
    let Some(k) = list::numbers(words::behind(words), tape) else {
        return show::bad(o, at);
    };
    lent(lines::part(&text[..], 0, n), q, k, tape, aside, o, at)
}
