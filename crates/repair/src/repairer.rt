// The repair of a tape: nothing is written until it is known that nothing will be refused.
ghost use Rattle.std.specs.Prelude.{◌≡◌, ◌≤◌, ◌+◌, ◌*◌, length, drop};
ghost use Rattle.reading.specs.Readings.{read_from, entries};
ghost use Rattle.rows.specs.Rows.{width, room_of, entries_of};
ghost use Rattle.tokens.specs.Ron.{ron_token};
ghost use Rattle.repair.specs.Repair.{repair_answer_of, repair_tape_of};
ghost use Rattle.repair.specs.inner.Steps.{Movable, finish_answer, finish_tape};

use crate::check::repair_fits;
use crate::join::find_join;
use crate::quiet_end::last_quiet;
use crate::rewrite::{Rest, rewrite};
use crate::seeking::{ends_before, resume_at};
use rows::row;
use text::Refusal;

// How many entries the tape holds then, and how many of them were kept before and behind.
#[derive(Clone, Copy)]
pub struct Repaired {
    pub count: usize,
    pub before: usize,
    pub behind: usize,
}

// The first j entries kept, the rest written anew; 22 last.
fn finish(tape: &mut [u32], j: usize, text: &[u8], rest: Rest) -> Result<Repaired, Refusal>
    requires { (length text.now ≤ 65536) × (rest.from ≤ length text.now)
        × (rest.n ≤ length (entries (read_from ron_token text.now rest.from))) × (j + rest.f + rest.m ≤ room_of (length tape.old))
        × (rest.n ≤ 65536) × Movable rest.b rest.e (entries_of rest.m (drop (width * (j + rest.f)) tape.old)) }
    ensures { (result ≡ finish_answer (room_of (length tape.old)) j rest)
        × (tape.new ≡ finish_tape tape.old j text.now rest) }
{
    let total = j + rest.n + rest.m;
    if row::room(&tape[..]) < total {
        return Err(Refusal::no_room());
    }
    rewrite(&mut tape[row::begins(j)..], text, rest);
    Ok(Repaired {
        count: total,
        before: j,
        behind: rest.m,
    })
}

// The tape of an old text, in which the bytes from a to b were replaced, made that of the new text, which has at most 65,536 bytes: how many entries it holds
// now, and how many were kept before and behind; refused, it leaves the tape as it was.
pub fn repair_text(
    tape: &mut [u32],
    count: usize,
    old_len: usize,
    a: usize,
    b: usize,
    text: &[u8],
) -> Result<Repaired, Refusal>
    requires { length text.now ≤ 65536 }
    ensures { (result ≡ repair_answer_of tape.old count old_len a b text.now)
        × (tape.new ≡ repair_tape_of tape.old count old_len a b text.now) }
{
    if !repair_fits(&tape[..], count, old_len, a, b, text.len()) {
        return Err(Refusal::not_in_order());
    }
    let e = text.len() - (old_len - b);
    let q = last_quiet(&text[0..a]);
    let j = ends_before(&tape[..], count, q);
    let from = resume_at(&tape[..], j);
    let (n, i) = find_join(text, from, &tape[..], count, j, b, e)?;
    let f = i - j;
    let m = count - i;
    let rest = Rest {
        from,
        n,
        f,
        m,
        b,
        e,
    };
    finish(tape, j, text, rest)
}
