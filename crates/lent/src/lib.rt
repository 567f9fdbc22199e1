// Lent slices that a call may not touch: marked or set aside before it, and compared behind it (document 01, demand 1, as the program `answers` looks at
// it).
#![tactic(auto)]

pub mod bytes;
pub mod copies;
pub mod magnitudes;
mod marks;
pub mod numbers;
