// Reading while a text arrives (document 02, change request 3): the state between two pieces, what a piece gives, and what the end of the text gives.
//
// A piece is taken byte by byte: specs/Come says what its bytes give, over the theory of crate arriving and the bytes of crate settled. The code reads what has
// come at the bytes that may decide something, and no other: a `turn` is one decision, a `run` goes from one to the next, and `lay` writes what was counted.
#![tactic(auto)]

pub mod come;
pub mod finish;
pub mod judge;
pub mod keep;
pub mod lay;
pub mod limit;
pub mod order;
pub mod piece;
pub mod places;
pub mod run;
pub mod scan;
pub mod state;
pub mod stride;
pub mod turn;
pub mod verdict;
pub mod waiting;
