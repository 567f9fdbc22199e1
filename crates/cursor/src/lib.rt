// The crate's `ParserCursor` of three numbers, by value: its methods hand the moved cursor back (document 01, "Code places and their forms").
//
// The place, where the last whitespace began, and how long it was: `skip_ws`, `next_char`, `consume_char`, `expect_char`, `parse_escape`, after the
// functions of the same names in parse.rs. The call skip stands on it, and so do chars, byte literals and the front of struct kinds.
#![tactic(auto)]

mod chars;
mod escape;
mod skip;

ghost use Rattle.std.specs.Prelude.{◌≡◌, ◌+◌, ◌^◌, ◌<◌};
ghost use Rattle.cursor.specs.Cursor.{cursor_at, moved_by};

pub use chars::Consumed;
pub use escape::Escaped;

// The place, where the last whitespace began, and how long it was.
#[derive(Clone, Copy)]
pub struct ParserCursor {
    pub cursor: usize,
    pub pre_ws_cursor: usize,
    pub last_ws_len: usize,
}

impl ParserCursor {
    // The mark for a line comment that the text's end left unclosed.
    pub const WS_CURSOR_UNCLOSED_LINE: usize = usize::MAX;

    // At a place, with no whitespace before it.
    pub fn at(place: usize) -> Self
        ensures { result ≡ cursor_at place }
    {
        Self {
            cursor: place,
            pre_ws_cursor: place,
            last_ws_len: 0,
        }
    }

    // So many bytes on.
    fn advance_bytes(self, bytes: usize) -> ParserCursor
        requires { self.cursor + bytes < 2 ^ 64 }
        ensures { result ≡ moved_by bytes self }
    {
        ParserCursor {
            cursor: self.cursor + bytes,
            pre_ws_cursor: self.pre_ws_cursor,
            last_ws_len: self.last_ws_len,
        }
    }
}
