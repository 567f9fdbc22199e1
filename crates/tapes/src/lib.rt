// The lines of the case format that read and walk a tape. Each takes the line's own words, room for the bytes and numbers that they say, and a place of
// the output.
#![tactic(auto)]

pub mod read_any;
pub mod read_text;
mod reads;
pub mod walk_any;
pub mod walk_text;
mod walks;
