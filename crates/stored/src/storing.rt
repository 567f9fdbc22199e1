// A state's numbers, at the front of a slice.
ghost use Rattle.std.specs.Prelude.{◌≡◌};
ghost use Rattle.stored.specs.Numbers.{gap_number, last_number, level_number, low as low_of, stored_in};

use gaps::Open;
use pieces::state::Arrival;

// How many numbers a state has, with that of the bytes kept.
const NUMBERS: usize = 10;

// A number, or the largest of 32 bits.
fn low(n: usize) -> u32
    ensures { result ≡ low_of n }
{
    u32::try_from(n).unwrap_or(u32::MAX)
}

fn gap_number(gap: Open) -> u32
    ensures { result ≡ gap_number gap }
{
    match gap {
        Open::Clear => 0,
        Open::Slash => 1,
        Open::Line => 2,
        Open::Block(_, _) => 3,
    }
}

fn level_number(gap: Open) -> u32
    ensures { result ≡ level_number gap }
{
    match gap {
        Open::Clear => 0,
        Open::Slash => 0,
        Open::Line => 0,
        Open::Block(level, _) => level,
    }
}

fn last_number(gap: Open) -> u32
    ensures { result ≡ last_number gap }
{
    match gap {
        Open::Clear => 0,
        Open::Slash => 0,
        Open::Line => 0,
        Open::Block(_, last) => u32::from(last),
    }
}

// A state's ten numbers to the front of a slice, if that has as many.
pub fn store(a: Arrival, state: &mut [u32])
    ensures { state.new ≡ stored_in a state.old }
{
    if state.len() < NUMBERS {
        return;
    }
    let gap = a.gap;
    let refusal = a.refusal;
    state[..NUMBERS].copy_from_slice(&[
        low(a.taken),
        low(a.part),
        gap_number(gap),
        level_number(gap),
        last_number(gap),
        u32::from(refusal.number),
        low(refusal.place),
        u32::from(refusal.reason),
        low(a.former),
        low(a.kept),
    ]);
}
