// Plain forms: runs of ASCII blanks, the eight marks, plain names, strings and numbers, which the read loop takes by itself. One law, `plain_token` of
// proofs/PlainLaws: the general token reader (document 01, module 9) answers the same.
#![tactic(auto)]

pub mod blanks;
pub mod forms;
mod marks;
