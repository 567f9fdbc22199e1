// The scan of struct kinds by characters (document 01, module 8), as the crate has it: specs/. No code: that the scan by bytes of crate `structs` answers
// the same on every UTF-8 text is proved in proofs/.
#![tactic(auto)]
