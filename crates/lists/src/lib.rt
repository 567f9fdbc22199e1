// The lines of the case format that read a list of integers: `I` and `n`. Each takes the line's own words, room for the bytes and numbers that they say, and
// a place of the output.
#![tactic(auto)]

mod gather;
pub mod list_any;
pub mod list_text;
mod listed;
