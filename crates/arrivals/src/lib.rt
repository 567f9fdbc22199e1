// The lines of the case format for a text that arrives: `q` and `Q` (document 02, change request 3). Each takes the line's own words, room for the bytes and
// numbers that they say, and a place of the output.
#![tactic(auto)]

pub mod arrive_any;
pub mod arrive_text;
mod said;
mod states;
