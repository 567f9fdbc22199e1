// Two names, byte by byte.
ghost use Rattle.std.specs.Prelude.{◌≡◌};
ghost use Rattle.fields.specs.Fields.{same};
ghost use Rattle.fields.specs.Names.{name_at, HasName};
ghost use Rattle.fields.specs.inner.Order.{order_of};

use crate::names::name_of;
use std::cmp::Ordering;

// Whether two parts have the same bytes.
pub fn is_same(a: &[u8], b: &[u8]) -> bool
    ensures { result ≡ same a.now b.now }
{
    a == b
}

// Whether two entries have one name.
pub fn same_name(text: &[u8], tape: &[u32], x: u16, y: u16) -> bool
    requires { HasName text.now tape.now x × HasName text.now tape.now y }
    ensures { result ≡ same (name_at text.now tape.now x) (name_at text.now tape.now y) }
{
    is_same(name_of(text, tape, x), name_of(text, tape, y))
}

// The first byte that differs decides; where one part goes on, it stands behind. By hand, since `cmp`, which is made for long slices, takes half as much again on names.
fn ordered(a: &[u8], b: &[u8]) -> Ordering
    ensures { result ≡ order_of a.now b.now }
{
    for i in 0..a.len() {
        if b.len() <= i {
            return Ordering::Greater;
        }
        if a[i] < b[i] {
            return Ordering::Less;
        }
        if b[i] < a[i] {
            return Ordering::Greater;
        }
    }
    if a.len() < b.len() {
        return Ordering::Less;
    }
    Ordering::Equal
}

// How the names of two entries stand.
pub fn compare(text: &[u8], tape: &[u32], x: u16, y: u16) -> Ordering
    requires { HasName text.now tape.now x × HasName text.now tape.now y }
    ensures { result ≡ order_of (name_at text.now tape.now x) (name_at text.now tape.now y) }
{
    ordered(name_of(text, tape, x), name_of(text, tape, y))
}
