// Whitespace and comments of a text that arrives in pieces (document 02, change request 3).
//
// `Open` is all that has to be kept of them between two pieces: nothing, a `/`, a line comment, or a block comment with its level and its last byte.
// `pass_gap` goes on from there, and says where they end in the piece or what is open at its end.
//
// Read specs/Opens first. Whatever follows, a text may be replaced by the shortest one that leaves the same open (proofs/Canon), so two pieces come to
// what one does (proofs/Cuts).
#![tactic(auto)]

mod block;
mod pass;
mod state;
mod step;

pub use pass::{Passed, pass_gap};
pub use state::Open;
