// The string or byte string that an entry of a tape names (document 01, the calls contents and decoded): found, and read anew by its kind at its start;
// refusals 23, 27 to 29.
#![tactic(auto)]

pub mod decoding;
pub mod named;
pub mod view;
