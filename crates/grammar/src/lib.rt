// The grammar of entries (document 01, module 10), and one step of the walk over them: no tape, no limit and no stack here.
//
// specs/Grammar gives documents as trees of entries; specs/Steps what the walk wants next. Proved of the two: a list of entries is accepted exactly when
// it is a document within the depth (Accepts, Complete), and each of 24, 25, 26 is given exactly in its case (Refusals).
#![tactic(auto)]

pub mod ends;
pub mod kinds;
pub mod marks;
pub mod states;
pub mod steps;
