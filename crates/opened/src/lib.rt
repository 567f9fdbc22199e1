// Where what is not closed began, for people (program explain). No module of document 01: a refusal has one place, where the reader or the walk stopped, and
// this finds the other one, where a comment or a string that is not closed begins, the innermost bracket that is open, or the field that has the name already.
#![tactic(auto)]

pub mod begun;
pub mod brackets;
pub mod former;
pub mod front;
pub mod reach;
pub mod walks;

pub use begun::Begun;
