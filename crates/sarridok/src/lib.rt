// The calls that a host may make (document 01, "What the calls do"): read, walk, repair, integer, contents, decoded, struct_kind, skip; integers (document
// 02, CR 7); and begin, piece and finish for a text that arrives (CR 3), which crate pieces has.
//
// None has a `requires`, and each promise is one definition of the whole answer and of every lent number afterwards. proofs/*Determined show that two
// answers which meet a promise are equal. One page with all promises is proofs/Promises.antt of crate promises; docs/PROMISES.md has them in words.
#![tactic(auto)]

mod contents_call;
mod decoded_call;
mod integer_call;
mod integers_call;
mod items;
mod read_call;
mod repair_call;
mod skip_call;
mod struct_kind_call;
mod walk_call;

pub use contents_call::{contents, contents_part};
pub use cursor::ParserCursor;
pub use decoded_call::decoded;
pub use entries::view::Span;
pub use gaps::Open;
pub use integer_call::{Typed, integer};
pub use integers::{Value, Width};
pub use integers_call::integers;
pub use items::Coded;
pub use pieces::finish::finish;
pub use pieces::piece::piece;
pub use pieces::state::{Arrival, Arrived, Ended, begin};
pub use read_call::read;
pub use repair::repairer::Repaired;
pub use repair_call::repair;
pub use skip_call::skip;
pub use struct_kind_call::struct_kind;
pub use structs::{NewtypeMode, StructType, TupleMode};
pub use text::Refusal;
pub use walk_call::walk;
