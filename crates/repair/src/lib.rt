// Repair (document 01, "Repair"): the tape of a text that changed in one run of its bytes, made that of the new text; the text was judged already.
//
// `repairer` takes the steps: `check` is refusal 23; `quiet_end` finds the last quiet byte before the cut, and `seeking` the entries that end before it,
// which are kept; `join` reads the new text from there on until an entry starts where a moved old one does, behind the same gap, and writes nothing; `rewrite` is lent the
// tape's part from the first entry not kept, and `moving` moves and clears its rows. specs/inner/Steps says the same steps over entries, for every ordered
// tape. That they come to a fresh reading, where the tape is the old text's, is crate mending.
#![tactic(auto)]

pub mod check;
pub mod join;
pub mod moving;
pub mod place;
pub mod quiet_end;
pub mod repairer;
pub mod rewrite;
pub mod seeking;
