// Where the walk stands between two entries, and where an entry takes it.

// The innermost open bracket and what stands in it: in { } a key, or the value behind it.
#[derive(Clone, Copy)]
pub enum Frame {
    Top,
    Square,
    Tuple,
    Struct,
    Key,
    Pair,
}

// What may stand at an entry.
#[derive(Clone, Copy)]
pub enum Want {
    // attributes, then a value
    Start,
    // a value
    Must,
    // a value, or the bracket's end
    Item,
    // behind an opening round bracket: a name, a value or the bracket's end
    First,
    // behind a name there: a colon, or as behind a name
    FirstName,
    // behind a name: an opening round bracket, or as behind a value
    Named,
    // behind a value: what the innermost bracket says
    Behind,
    // a field's name, or the bracket's end
    Field,
    // a field's colon
    FieldName,
}

// What an entry does: stays inside the innermost bracket, opens one, closes it, or is not allowed.
#[derive(Clone, Copy)]
pub enum Move {
    Stay(Want, Frame),
    Push(Want, Frame),
    Pop,
    Bad,
}
