// Texts (document 01, module 1). Everything else stands on this crate.
//
// `bytes` and `classes` say what a byte or a character is; `utf8` finds the first bad sequence, code points and encodings; `judge` is the front of every
// call: refusal 1 (size), then 2 (UTF-8). `refusal` holds the one `Refusal {number, place, reason}` that all answers carry, with one constructor for each
// number of the paper; `reason` the eight reasons of 13.
//
// Read specs/Utf8 first. What is proved beyond the contracts: a text is accepted exactly when it is a run of encoded scalar values, and a refused one
// names the first byte of its first bad sequence (proofs/Utf8Agree); whitespace by bytes is whitespace by code point (BlankLaws).
#![tactic(auto)]

pub mod ahead;
pub mod ascii;
pub mod bytes;
pub mod classes;
pub mod judge;
pub mod reason;
pub mod refusal;
pub mod utf8;

pub use reason::EscapeReason;
pub use refusal::Refusal;
