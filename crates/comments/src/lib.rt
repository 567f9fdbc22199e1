// Comments (document 01, module 2): block and line comments, and the gap before a token.
//
// `decide` is the rule of nesting, one decision over the two bytes at hand with the level beside it; `block_comment` follows it; `line_comment` runs to LF;
// `skip_gap` passes whitespace and comments up to a token, the end, or a refusal (4, 5, 6).
//
// A block comment ends exactly where its nesting does: proofs/Nesting, against a definition of its own (specs/Blocks). That an edit elsewhere leaves a gap
// as it was is GapWindow.
#![tactic(auto)]

mod block;
mod gap;
mod line;

pub use block::{Decision, block_comment, decide};
pub use gap::{Gap, is_blank, skip_gap};
pub use line::line_comment;
