// The walk over the entries of a tape (document 01, module 10): judged first, and only then joined, so that a refused walk writes nothing.
//
// `turning` says what an entry comes to; `judging` keeps the open brackets, at most 128, in an array of its own; `joining` writes for each bracket the
// number of its partner. The last two are proved equal to the walk over entries of crate grammar.
#![tactic(auto)]

pub mod joining;
pub mod judging;
mod turning;
