// What may be taken of bytes that have come.
ghost use Rattle.std.specs.Prelude.{◌≡◌, ◌≤◌, length};
ghost use Rattle.octets.specs.Octets.{begun3, begun_of, bad_of, allowed_of};

use crate::answer::Allowed;
use text::bytes::peek;
use text::classes::is_within;
use text::utf8::{first_bad, is_second};

// How many of three bytes a character begins with and goes on behind.
fn begun_by(a: u8, b: u8, c: u8) -> usize
    ensures { result ≡ begun3 a b c }
{
    if is_within(0xC2, 0xDF, a) {
        return 1;
    }
    if a < 0xE0 {
        return 0;
    }
    if 0xF4 < a {
        return 0;
    }
    if is_second(a, b) {
        if a < 0xF0 {
            return 2;
        }
        if is_within(0x80, 0xBF, c) {
            return 3;
        }
        return 2;
    }
    1
}

// The same at the front of s.
fn begun(s: &[u8]) -> usize
    ensures { result ≡ begun_of s.now }
{
    begun_by(peek(s, 0), peek(s, 1), peek(s, 2))
}

// What may be taken where no character stands at k.
fn at_bad(s: &[u8], k: usize) -> Allowed
    requires { k ≤ length s.now }
    ensures { result ≡ bad_of s.now k }
{
    let m = begun(&s[k..]);
    let n = k + m;
    if n == s.len() {
        return Allowed::All(m);
    }
    Allowed::Bad(n, k)
}

// What may be taken of s.
pub fn allowed(s: &[u8]) -> Allowed
    ensures { result ≡ allowed_of s.now }
{
    let found = first_bad(s);
    match found {
        None => Allowed::All(0),
        Some(k) => at_bad(s, k),
    }
}
