// What `read` reads, said plainly (document 01, module 9; demand 2): entries and the gaps between them tile the text, and each entry's bytes have its
// kind's form (specs/). No code: that every accepted read leaves such entries is proved in proofs/.
#![tactic(auto)]
