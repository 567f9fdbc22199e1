// The theory of readings over any token reader (document 01, "Repair"). No code: it stands in specs/ and proofs/.
//
// A token reader is any function from a part of a text to a token, an end or a refusal; specs/Owed says which laws it owes (a token is bounded, and is
// read the same if what stands behind a quiet byte changes). Over these laws alone: a reading up to a quiet byte is stable, two readings join where both
// start an entry, and what may be kept is counted (specs/Kept). RON's reader meets the laws in crate tokens.
#![tactic(auto)]
