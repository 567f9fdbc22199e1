// UTF-8 of a text that arrives in pieces (document 02, CR 3): how many bytes may be taken, whether a character is cut off at the end, and where the first bad
// sequence begins.
//
// Read specs/Octets first. What is proved beyond the contract: the two answers mean what they say by RFC 3629's grammar alone (proofs/Exactly), and however a
// text is cut, they are those of the whole (proofs/Cutting).
#![tactic(auto)]

mod answer;
mod front;

pub use answer::Allowed;
pub use front::allowed;
