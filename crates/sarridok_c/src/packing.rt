// An answer in one number of 64 bits.
ghost use Rattle.std.specs.Prelude.{◌≡◌};
ghost use Rattle.sarridok_c.specs.Packed.{at_most, pair_of, bit_of, packed, refusal_word, unfit_in};
ghost use Rattle.sarridok_c.specs.Words.{count_word, done_word};

use text::Refusal;
use text::judge::judge;

// A number, or the largest that there is room for.
fn at_most(most: u64, n: u64) -> u64
    ensures { result ≡ at_most most n }
{
    n.min(most)
}

// Two numbers, the first in 31 bits and the second in 32.
pub fn pair(high: u64, low: u64) -> u64
    ensures { result ≡ pair_of high low }
{
    let above = at_most(0x7FFF_FFFF, high);
    let below = at_most(0xFFFF_FFFF, low);
    let raised = above * 0x1_0000_0000;
    raised + below
}

// Whether, as a number.
pub fn bit(set: bool) -> u64
    ensures { result ≡ bit_of set }
{
    if set {
        return 1;
    }
    0
}

// The top bit, the refusal's reason, its number and its place.
pub fn refused(refusal: Refusal) -> u64
    ensures { result ≡ refusal_word refusal }
{
    let number = refusal.number as u64;
    let reason = refusal.reason as u64;
    let word = pair(number + 256 * reason, refusal.place as u64);
    0x8000_0000_0000_0000 + word
}

// How many entries or bytes, or the refusal.
pub fn counted(answer: Result<usize, Refusal>) -> u64
    ensures { result ≡ packed count_word answer }
{
    match answer {
        Ok(count) => pair(0, count as u64),
        Err(refusal) => refused(refusal),
    }
}

// 0 for what answers nothing, or the refusal.
pub fn done(answer: Result<(), Refusal>) -> u64
    ensures { result ≡ packed done_word answer }
{
    match answer {
        Ok(()) => 0,
        Err(refusal) => refused(refusal),
    }
}

// What a number that names no width or mode is refused with: 28, behind 1 and 2 of the text.
pub fn unfit_in(text: &[u8]) -> Refusal
    ensures { result ≡ unfit_in text.now }
{
    let judged = judge(text);
    match judged {
        Ok(()) => Refusal::unfit(),
        Err(refusal) => refusal,
    }
}
