// What is open where a text that arrives stands between two pieces.

// What is open behind the bytes that have come.
#[derive(Clone, Copy)]
pub enum Open {
    // Nothing.
    Clear,
    // A `/` whose next character has not come.
    Slash,
    // A line comment.
    Line,
    // A block comment: how many others stand around it, and its last byte if that is an unpaired `*` or `/`, else 0.
    Block(u32, u8),
}
