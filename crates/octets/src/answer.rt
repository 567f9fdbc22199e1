// What may be taken of bytes that begin with a character's first byte.
#[derive(Clone, Copy)]
pub enum Allowed {
    // All; so many at the end, 0 to 3, belong to a character that has not come whole.
    All(usize),
    // So many, the next byte being one with which no UTF-8 goes on; and where its sequence begins.
    Bad(usize, usize),
}
