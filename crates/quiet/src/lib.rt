// Quiet bytes (document 01, "Repair"): space, tab, LF, CR, comma, colon and the six brackets, told by a range and a bit test. Behind one of them no
// earlier token can reach.
#![tactic(auto)]

pub mod bytes;
