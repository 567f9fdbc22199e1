// The archive for hosts in C and Rust (header bindings/c/sarridok.h): each call of sarridok_c under its own name, by the C calling convention, with the same promise.
//
// A crate is a library, which other crates can stand on, or a static library, which C is linked with. sarridok_c is the library, since theorems speak of its calls;
// this crate only hands them out, and nothing is decided here.
#![tactic(auto)]

mod begin_c;
mod contents_c;
mod decoded_c;
mod finish_c;
mod integer_c;
mod integers_c;
mod piece_c;
mod read_c;
mod repair_c;
mod skip_c;
mod struct_kind_c;
mod version_c;
mod walk_c;

pub use begin_c::sarridok_begin;
pub use contents_c::sarridok_contents;
pub use decoded_c::sarridok_decoded;
pub use finish_c::sarridok_finish;
pub use integer_c::sarridok_integer;
pub use integers_c::sarridok_integers;
pub use piece_c::sarridok_piece;
pub use read_c::sarridok_read;
pub use repair_c::sarridok_repair;
pub use skip_c::sarridok_skip;
pub use struct_kind_c::sarridok_struct_kind;
pub use version_c::sarridok_version;
pub use walk_c::sarridok_walk;
