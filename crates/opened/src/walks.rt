// What people look for where the walk refuses.
ghost use Rattle.std.specs.Prelude.{◌≡◌, ◌≤◌, length};
ghost use Rattle.rows.specs.Rows.{room_of};
ghost use Rattle.opened.specs.Walks.{walk_begun};

use crate::begun::Begun;
use crate::brackets::{open_behind, other_before};
use crate::former::field_before;
use text::Refusal;

// What the walk of so many entries is refused for with 25, 26 or 31.
pub fn walk_begun(text: &[u8], tape: &[u32], count: usize, r: Refusal) -> Begun
    requires { count ≤ room_of (length tape.now) }
    ensures { result ≡ walk_begun text.now tape.now count r }
{
    if r.number == Refusal::TAPE_ENDS_EARLY {
        return open_behind(tape, count);
    }
    let n = r.place;
    if count <= n {
        return Begun::Nothing;
    }
    if r.number == Refusal::NOT_ALLOWED_HERE {
        return other_before(tape, n);
    }
    if r.number == Refusal::REPEATED_FIELD {
        return field_before(text, tape, n);
    }
    Begun::Nothing
}
