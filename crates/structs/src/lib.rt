// Struct kinds (document 01, module 8), after the crate's `check_struct_type`, over the part of the text that begins at the place: unit, newtype, tuple or
// named, and the two modes of the crate's enums.
#![tactic(auto)]

mod kinds;
mod passes;
mod scan;
mod steps;
mod types;

pub use kinds::{NewtypeMode, StructType, TupleMode, placed};
pub use types::check_struct_type;
