// Which refusals stay however the text goes on, and the laws of RON's token reader that reading while a text arrives stands on (document 02, change request 3).
//
// Read specs/Settled first; specs/Stood says where the reading of an attribute stands, since 19 to 21 do not tell. `ron` in proofs/Owed says that RON's token
// reader owes what crate arriving asks of one; a file of proofs/ for each leaf, `WordEnds` to `GapEnds`, says why.
#![tactic(auto)]

pub mod bytes;
pub mod nothing;
pub mod refused;
pub mod stood;
pub mod stood_list;
pub mod stood_steps;
