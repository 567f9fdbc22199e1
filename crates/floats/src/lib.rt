// Floats (document 01, module 6), over the part of the text that begins at the token's place: the run of float characters, its suffix, and the grammar of
// `f64::from_str`; refusals 11 and 12.
//
// specs/Grammar is that grammar as Rust's documentation writes it; proofs/Decides shows that the small machine of `state` accepts exactly its words.
#![tactic(auto)]

pub mod anew;
pub mod class;
pub mod float;
pub mod judge;
pub mod state;
