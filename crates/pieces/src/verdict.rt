// What a byte decides of what has begun.
use text::Refusal;

// What a byte decides.
#[derive(Clone, Copy)]
pub enum Verdict {
    Nothing,
    // So many entries; where the last of them ends.
    Gives(usize, usize),
    // So many entries, where the last of them ends, and a refusal behind them.
    Shuts(usize, usize, Refusal),
}
