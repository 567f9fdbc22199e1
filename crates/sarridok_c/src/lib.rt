// The calls for hosts in C and Rust (crate sarridok_archive hands them out, header bindings/c/sarridok.h): document 01's calls over numbers and slices, the answer
// packed into one number.
//
// Each promise is the call's own definition, packed (specs/Packed): the top bit for a refusal, its reason, number and place. A refused call writes nothing
// through any pointer, but for a text that piece or finish refuses behind the entries that it gives (specs/Arrivals).
#![tactic(auto)]

mod begin_c;
mod contents_c;
mod decoded_c;
mod finish_c;
mod integer_c;
mod integers_c;
mod lent_state;
mod packing;
mod piece_c;
mod read_c;
mod repair_c;
mod skip_c;
mod struct_kind_c;
mod version_c;
mod walk_c;

pub use begin_c::sarridok_begin;
pub use contents_c::sarridok_contents;
pub use decoded_c::sarridok_decoded;
pub use finish_c::sarridok_finish;
pub use integer_c::sarridok_integer;
pub use integers_c::sarridok_integers;
pub use piece_c::sarridok_piece;
pub use read_c::sarridok_read;
pub use repair_c::sarridok_repair;
pub use skip_c::sarridok_skip;
pub use struct_kind_c::sarridok_struct_kind;
pub use version_c::sarridok_version;
pub use walk_c::sarridok_walk;
