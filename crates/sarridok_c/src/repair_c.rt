// `repair`: the number of entries; how many were kept before and behind goes into lent numbers.
ghost use Rattle.std.specs.Prelude.{◌≡◌};
ghost use Rattle.repair.specs.Repair.{repair_of, repaired_tape};
ghost use Rattle.sarridok_c.specs.Packed.{packed, lent_after};
ghost use Rattle.sarridok_c.specs.Words.{repaired_word, before_of, behind_of};

use crate::packing::{pair, refused};
use sarridok::Repaired;
use text::Refusal;

fn word(answer: Result<Repaired, Refusal>, before: &mut u64, behind: &mut u64) -> u64
    ensures { (result ≡ packed repaired_word answer)
        × (before.new ≡ lent_after before_of answer before.old)
        × (behind.new ≡ lent_after behind_of answer behind.old) }
{
    match answer {
        Ok(told) => {
            *before = told.before as u64;
            *behind = told.behind as u64;
            pair(0, told.count as u64)
        }
        Err(refusal) => refused(refusal),
    }
}

// Makes the tape of an old text that of `text`, in which bytes `a` to `b` of the old one were replaced. Its answer is how many entries the tape has now.
pub fn sarridok_repair(
    tape: &mut [u32],
    count: usize,
    old_len: usize,
    a: usize,
    b: usize,
    text: &[u8],
    before: &mut u64,
    behind: &mut u64,
) -> u64
    ensures answer { result ≡ packed repaired_word (repair_of tape.old count old_len a b text.now) }
    ensures entries { tape.new ≡ repaired_tape tape.old count old_len a b text.now }
    ensures before { before.new ≡
        lent_after before_of (repair_of tape.old count old_len a b text.now) before.old }
    ensures behind { behind.new ≡
        lent_after behind_of (repair_of tape.old count old_len a b text.now) behind.old }
{
    word(
        sarridok::repair(tape, count, old_len, a, b, text),
        before,
        behind,
    )
}
