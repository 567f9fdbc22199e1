// The theory of repair (document 01, the mission's third demand). No code: it stands in specs/ and proofs/.
//
// A repair of the tape that a reading left comes to what a fresh reading of the new text answers, entries, refusals and places alike, and its two counts
// are document 01's (proofs/Demand3; Whole and Joining on the way; Again for repairs of repairs).
#![tactic(auto)]
