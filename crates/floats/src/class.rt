// The bytes that a float is made of.
ghost use Rattle.std.specs.Prelude.{◌≡◌, get_or};
ghost use Rattle.floats.specs.Classes.{sign, scale, float_goes, float_run};

use text::bytes::peek;
use text::classes::is_float_char;

// `+` or `-`.
pub fn is_sign(c: u8) -> bool
    ensures { result ≡ sign c }
{
    if c == b'+' {
        return true;
    }
    c == b'-'
}

// `e` or `E`, which an exponent begins with.
pub fn is_scale(c: u8) -> bool
    ensures { result ≡ scale c }
{
    if c == b'e' {
        return true;
    }
    c == b'E'
}

// A float goes on with a, before b: two points in a row belong to no float.
fn float_goes(a: u8, b: u8) -> bool
    ensures { result ≡ float_goes a b }
{
    if a == b'.' {
        return b != b'.';
    }
    is_float_char(a)
}

// A float goes on at the front of the part.
pub fn goes_on(t: &[u8]) -> bool
    ensures { result ≡ float_goes (get_or t.now 0 0) (get_or t.now 1 0) }
{
    float_goes(peek(t, 0), peek(t, 1))
}

// How many float characters the part begins with, up to two points in a row.
pub fn float_run(s: &[u8]) -> usize
    ensures { result ≡ float_run s.now }
{
    for (i, &a) in s.iter().enumerate() {
        let b = peek(s, i + 1);
        if !float_goes(a, b) {
            return i;
        }
    }
    s.len()
}
