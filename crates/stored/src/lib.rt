// A state between two pieces of a text that arrives (document 02, change request 3), as numbers: nine, `taken,part,gap,level,last,number,place,reason,former`, and
// how many bytes are kept. A host may store them with those bytes.
//
// Read specs/Numbers first: numbers that no state has are told as such, and a state in order is got back from its numbers as it was (proofs/RoundTrip).
#![tactic(auto)]

mod states;
mod storing;

pub use states::state_of;
pub use storing::store;
