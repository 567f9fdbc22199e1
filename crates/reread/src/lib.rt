// What an accepted read leaves can be read again (document 01, demand 2): its strings by `decoded` and `contents`, its integers by `integer`, its tape by
// `walk`. No code: specs/ says what a string entry is, and proofs/ has the theorems.
#![tactic(auto)]
