// Read (document 01, module 9): a text that was judged already, into a tape. One `pass` is run twice, first to count or to refuse, then to lay the
// entries, so that a refused read writes nothing.
//
// Plain forms are taken in the loop, all others by the general token reader; the promise speaks of the general one alone.
#![tactic(auto)]

pub mod fill;
pub mod measure;
pub mod pass;
pub mod reader;
pub mod scanned;
