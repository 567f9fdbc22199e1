// Lines and columns of a place of a text, for people (program explain): a line ends at LF, a column counts characters. No module of document 01: its
// places are bytes, and these are made of them.
#![tactic(auto)]

pub mod column;
pub mod entry;
pub mod line;
pub mod shown;
