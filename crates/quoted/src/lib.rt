// Strings, byte strings, chars and byte literals said plainly (document 01, modules 3 and 4): specs/. No code: that crate `strings` reads and decodes
// exactly these, and refuses an escape in one with 13 exactly where it is wrong (specs/Wrong.antt), is proved in proofs/.
#![tactic(auto)]
