// Entries on a tape (document 01, module 9): the only code that knows how an entry lies there, five numbers side by side.
//
// `row` reads and writes one entry, `order` tells whether a tape is in order (refusal 23). Every other crate speaks of lists of entries, through `laid`
// and `entries_of` of specs/Rows.
#![tactic(auto)]

pub mod kinds;
pub mod order;
pub mod row;

// Kind, start, end, detail and gap, in the order in which they lie on a tape; the gap is how many bytes stand between the former entry's end, or the text's
// start, and this one's start.
#[derive(Clone, Copy)]
pub struct Entry {
    pub kind: u32,
    pub start: u32,
    pub end: u32,
    pub detail: u32,
    pub gap: u32,
}
