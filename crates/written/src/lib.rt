// The number written at a place, said plainly (document 01, module 5; demand 2): specs/Written.antt. No code: that the call `integer` answers exactly this
// is proved in proofs/.
#![tactic(auto)]
