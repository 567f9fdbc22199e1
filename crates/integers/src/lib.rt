// Integers (document 01, module 5), over the part of the text that begins at the token's place: sign, prefix, digits and suffix; typed in one of eight
// widths, or the first width that fits.
//
// One law over the width for all eight (proofs/Exactly): what is read is the number written, and each of 7 to 10 is given exactly in its case.
#![tactic(auto)]

pub mod front;
pub mod ident;
pub mod integer;
pub mod suffix;
pub mod width;

pub use integer::{Integer, Value};
pub use width::Width;
