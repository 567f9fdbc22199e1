// The lines of the case format that repair a tape. Each takes the line's own words, room for the bytes and numbers that they say, and a place of the output.
#![tactic(auto)]

mod cuts;
pub mod repair_any;
pub mod repair_text;
