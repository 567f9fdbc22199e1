// Characters with which no token starts.
ghost use Rattle.std.specs.Prelude.{◌≡◌};
ghost use Rattle.text.specs.Ahead.{char_if};
ghost use Rattle.text.specs.Classes.{ident_first};
ghost use Rattle.settled.specs.Settled.{is_word, starts_nothing};

use names::Class;
use names::characters::{is_wide_ahead, near_if};
use names::table_chars::char_if;
use text::bytes::peek;
use text::utf8::char_len;
use tokens::shape::{Shape, shape_of};
use xid::table::table;

// The width of a name's first character at the front, 0 where none stands. The table is built only for a character above U+007F that is no usual letter.
fn first_len(p: &[u8]) -> usize
    ensures { result ≡ char_if ident_first p.now }
{
    let n = near_if(Class::First, p);
    if n != 0 {
        return n;
    }
    if !is_wide_ahead(p) {
        return 0;
    }
    let t = table();
    char_if(&t, Class::First, p)
}

fn is_word(shape: Shape) -> bool
    ensures { result ≡ is_word shape }
{
    matches!(shape, Shape::Word)
}

// Such a character stands at the front, whole.
pub fn starts_nothing(p: &[u8]) -> bool
    ensures { result ≡ starts_nothing p.now }
{
    if char_len(p) == 0 {
        return false;
    }
    let shape = shape_of(peek(p, 0), peek(p, 1), peek(p, 2));
    if !is_word(shape) {
        return false;
    }
    first_len(p) == 0
}
