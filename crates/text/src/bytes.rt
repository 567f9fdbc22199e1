// Bytes at a place.
ghost use Rattle.std.specs.Prelude.{◌≡◌, get_or};

// The byte at i, and 0 behind the end.
pub fn peek(s: &[u8], i: usize) -> u8
    ensures { result ≡ get_or s.now i 0 }
{
    if i < s.len() { s[i] } else { 0 }
}
