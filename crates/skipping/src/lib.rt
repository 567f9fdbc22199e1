// The call `skip` said plainly (document 01): which cursor it answers, and where it refuses with 4, 5 and 6, by the gap of crate `gapped`
// (specs/Skips.antt). No code: that the call answers exactly so is proved in proofs/Skips.antt.
#![tactic(auto)]
