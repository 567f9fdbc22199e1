// Digit runs (document 01, module 5): the value of a run in a base, with one unsigned accumulator that goes up and one signed that goes down. Refusals 7
// to 10.
//
// The accumulators are those of the crate; specs/Value has the plain value of a run, and proofs/Exact shows that a run is read exactly when its value
// fits, and then as that value.
#![tactic(auto)]

pub mod digit;
pub mod down;
pub mod up;

// What a run of integer characters reads as: its magnitude, or why it is refused.
#[derive(Clone, Copy)]
pub enum Run {
    Value(u64),
    Empty,
    Underscore,
    NotDigit(usize),
    Over,
}
