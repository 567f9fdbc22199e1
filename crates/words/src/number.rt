// A word as a decimal number.
ghost use Rattle.std.specs.Prelude.{◌≡◌, [], ◌∷◌};
ghost use Rattle.words.specs.Number.{decimal_from, decimal_of};

// A number and one more digit.
fn with_digit(n: u64, b: u8) -> Option<u64>
    ensures { result ≡ decimal_from (b ∷ []) n }
{
    if !b.is_ascii_digit() {
        return None;
    }
    n.checked_mul(10)?.checked_add((b - b'0') as u64)
}

// The number that a word says; none where it is no decimal number, or one of 2^64 or more.
pub fn decimal_of(s: &[u8]) -> Option<u64>
    ensures { result ≡ decimal_of s.now }
{
    if s.is_empty() {
        return None;
    }
    let mut n = 0;
    for b in s {
        n = with_digit(n, *b)?;
    }
    Some(n)
}
