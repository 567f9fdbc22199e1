// `p A B NEWHEX HEX`: the last text read, its bytes from A to B replaced, and its tape repaired.
ghost use Rattle.std.specs.Prelude.{◌-◌, ◌≤◌, ◌++◌, ◌≡◌, length, take, drop};
ghost use Rattle.lines.specs.Out.{put};
ghost use Rattle.lines.specs.Over.{over};
ghost use Rattle.words.specs.Hex.{hex_in, pairs};
ghost use Rattle.edits.specs.Repairs.{changed_of, repair_with, read_repair, room_for, edit_in, cut_line, ends_of, text_line};

use crate::cuts::{self, Cut};
use lent::{copies, numbers};
use rows::row;
use words::{hex, number};

// The ends of the cut, which the first two words say; none where the line is no case.
fn front(words: &[u8]) -> Option<(usize, usize)>
    ensures { result ≡ ends_of words.now }
{
    let a = number::decimal_of(words::word(words))?;
    let b = number::decimal_of(words::word(words::behind(words)))?;
    Some((a as usize, b as usize))
}

// How many numbers an accepted repair may change: the rows of the longer tape.
#[tactic(auto, unfolding(crate::specs::Repairs::changed_of))]
fn written(n: usize, count: usize) -> usize
    ensures { result ≡ changed_of n count }
{
    let longer = n.max(count);
    if longer <= 65536 {
        return row::begins(longer);
    }
    0
}

fn repaired(
    new: &[u8],
    q: Cut,
    tape: &mut [u32],
    aside: &mut [u32],
    o: &mut [u8],
    at: usize,
) -> usize
    ensures { ((o.new, result) ≡ put (o.old, at) (repair_with q new.now tape.old aside.old).0)
        × (tape.new ≡ (repair_with q new.now tape.old aside.old).1)
        × (aside.new ≡ (repair_with q new.now tape.old aside.old).2) }
{
    copies::copy(&tape[..], aside);
    let r = sarridok::repair(tape, q.count, q.old, q.a, q.b, new);
    match r {
        Ok(p) => {
            let a = show::of_repair::counts(o, at, p.count, p.before, p.behind);
            let b = show::of_read::entries(o, a, &tape[..], p.count, b';');
            show::clean(o, b, numbers::kept(&tape[..], written(p.count, q.count)))
        }
        Err(f) => {
            let a = show::refused(o, at, f);
            show::clean(o, a, copies::same(&tape[..], &aside[..]))
        }
    }
}

fn read(
    old: &[u8],
    new: &[u8],
    a: usize,
    b: usize,
    tape: &mut [u32],
    aside: &mut [u32],
    o: &mut [u8],
    at: usize,
) -> usize
    ensures { ((o.new, result) ≡ put (o.old, at)
        (read_repair old.now new.now a b tape.old aside.old).0)
        × (tape.new ≡ (read_repair old.now new.now a b tape.old aside.old).1)
        × (aside.new ≡ (read_repair old.now new.now a b tape.old aside.old).2) }
{
    numbers::mark(tape);
    let n = old.len();
    let r = sarridok::read(old, tape);
    match r {
        Ok(count) => {
            let cut = Cut {
                count,
                old: n,
                a,
                b,
            };
            repaired(new, cut, tape, aside, o, at)
        }
        Err(f) => {
            let a = lines::out::bytes(o, at, b"old ");
            show::refused(o, a, f)
        }
    }
}

// As many numbers as either text can fill, and a few behind them.
#[tactic(auto, unfolding(crate::specs::Repairs::room_for))]
fn room(n: usize, m: usize) -> usize
    ensures { result ≡ room_for n m }
{
    row::begins(n.max(m).min(65536)) + 16
}

fn lent_to(
    old: &[u8],
    new: &[u8],
    a: usize,
    b: usize,
    tape: &mut [u32],
    aside: &mut [u32],
    o: &mut [u8],
    at: usize,
) -> usize
    ensures { ((o.new, result) ≡ put (o.old, at)
        (edit_in old.now new.now a b tape.old aside.old).0)
        × (tape.new ≡ (edit_in old.now new.now a b tape.old aside.old).1)
        × (aside.new ≡ (edit_in old.now new.now a b tape.old aside.old).2) }
{
    let k = room(old.len(), new.len());
    if k < tape.len() {
        return read(old, new, a, b, &mut tape[0..k], aside, o, at);
    }
    read(old, new, a, b, tape, aside, o, at)
}

// The old text is the first n bytes, the new one those behind them up to m.
fn edit(
    text: &[u8],
    n: usize,
    m: usize,
    a: usize,
    b: usize,
    tape: &mut [u32],
    aside: &mut [u32],
    o: &mut [u8],
    at: usize,
) -> usize
    ensures { ((o.new, result) ≡ put (o.old, at)
        (edit_in (take n text.now) (take (m - n) (drop n text.now)) a b tape.old aside.old).0)
        × (tape.new ≡ (edit_in (take n text.now) (take (m - n) (drop n text.now)) a b tape.old aside.old).1)
        × (aside.new ≡ (edit_in (take n text.now)
        (take (m - n) (drop n text.now)) a b tape.old aside.old).2) }
{
    lent_to(
        lines::part(text, 0, n),
        lines::part(text, n, m),
        a,
        b,
        tape,
        aside,
        o,
        at,
    )
}

// How many bytes a word says, with these behind the first k.
fn bytes_behind(word: &[u8], k: usize, text: &mut [u8]) -> Option<usize>
    requires { k ≤ length text.old }
    ensures { (result ≡ hex_in word.now (length (drop k text.old)))
        × (text.new ≡ take k text.old ++ over (pairs word.now) (drop k text.old)) }
{
    hex::bytes(word, &mut text[k..])
}

// The first n bytes are the old text; the word says the new bytes.
fn cut(
    word: &[u8],
    n: usize,
    a: usize,
    b: usize,
    text: &mut [u8],
    tape: &mut [u32],
    aside: &mut [u32],
    o: &mut [u8],
    at: usize,
) -> usize
    requires { n ≤ length text.old }
    ensures { ((o.new, result) ≡ put (o.old, at)
        (cut_line word.now a b (take n text.old) text.old tape.old aside.old).0)
        × (text.new ≡ (cut_line word.now a b (take n text.old) text.old tape.old aside.old).1)
        × (tape.new ≡ (cut_line word.now a b (take n text.old) text.old tape.old aside.old).2)
        × (aside.new ≡ (cut_line word.now a b (take n text.old) text.old tape.old aside.old).3) }
{
    if b < a {
        return show::bad(o, at);
    }
    if n < b {
        return show::bad(o, at);
    }
    if text.len() - n < a {
        return show::bad(o, at);
    }
    let first = n + a;
    let Some(k) = bytes_behind(word, first, text) else {
        return show::bad(o, at);
    };
    let end = first + k;
    let rest = n - b;
    if text.len() - end < rest {
        return show::bad(o, at);
    }
    cuts::make(text, n, k, a, b);
    edit(&text[..], n, end + rest, a, b, tape, aside, o, at)
}

// The old text is read, cut and repaired; both texts stand in the lent bytes, the new one behind the old.
pub fn answer(
    words: &[u8],
    text: &mut [u8],
    tape: &mut [u32],
    aside: &mut [u32],
    o: &mut [u8],
    at: usize,
) -> usize
    ensures { ((o.new, result) ≡ put (o.old, at)
        (text_line words.now text.old tape.old aside.old).0)
        × (text.new ≡ (text_line words.now text.old tape.old aside.old).1)
        × (tape.new ≡ (text_line words.now text.old tape.old aside.old).2)
        × (aside.new ≡ (text_line words.now text.old tape.old aside.old).3) }
{
    let Some((a, b)) = front(words) else {
        return show::bad(o, at);
    };
    let words = words::behind(words::behind(words));
    let Some(n) = hex::bytes(words::behind(words), text) else {
        return show::bad(o, at);
    };
    cut(words::word(words), n, a, b, text, tape, aside, o, at)
}
