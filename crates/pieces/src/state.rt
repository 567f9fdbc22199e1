// What stands between two pieces: plain numbers, which a host may store with the bytes that are kept.
ghost use Rattle.std.specs.Prelude.{◌≡◌};
ghost use Rattle.text.specs.Refusals.{refusal};
ghost use Rattle.pieces.specs.Pieces.{begun};

use gaps::Open;
use text::Refusal;

// A text that arrives, between two pieces.
#[derive(Clone, Copy)]
pub struct Arrival {
    // How many bytes of the text were taken.
    pub taken: usize,
    // How many of them are kept, at the front of the buffer: those from the first undecided entry's start on.
    pub kept: usize,
    // How many of those, at their end, belong to a character that has not come whole.
    pub part: usize,
    // Where the last entry given ended.
    pub former: usize,
    // What is open where nothing has begun.
    pub gap: Open,
    // The refusal that was given; its number is 0 where there is none.
    pub refusal: Refusal,
}

// What a piece comes to.
#[derive(Clone, Copy)]
pub enum Arrived {
    // So many entries, and what stands behind them.
    Given(usize, Arrival),
    // So many entries and a refusal behind them, which every later piece gets.
    Stopped(usize, Refusal, Arrival),
    // 22 or 23: nothing was taken.
    Refused(Refusal),
}

// What the end of the text comes to.
#[derive(Clone, Copy)]
pub enum Ended {
    // So many entries: the text is accepted.
    Given(usize),
    // So many entries and a refusal behind them.
    Stopped(usize, Refusal),
    // 22 or 23.
    Refused(Refusal),
}

// No refusal.
pub fn no_refusal() -> Refusal
    ensures { result ≡ refusal 0 0 }
{
    Refusal {
        number: 0,
        reason: 0,
        place: 0,
    }
}

// The state before a text's first byte.
pub fn begin() -> Arrival
    ensures { result ≡ begun }
{
    Arrival {
        taken: 0,
        kept: 0,
        part: 0,
        former: 0,
        gap: Open::Clear,
        refusal: no_refusal(),
    }
}
