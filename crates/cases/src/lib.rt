// The lines of the case format that ask for an integer, a cursor, a struct's kind or the contents of an entry. Each takes the line's own words, room for the
// bytes that they say, and a place of the output.
#![tactic(auto)]

pub mod any_c;
pub mod c;
mod contents;
pub mod i;
pub mod k;
pub mod s;
