// Searches a byte at a time: in the sixteen bytes where one is found, in the last bytes of a text, and in the first four.
ghost use Rattle.std.specs.Prelude.{◌≡◌, ◌+◌, ◌≤◌, length, drop};
ghost use Rattle.text.specs.Runs.{run};
ghost use Rattle.search.specs.inner.Others.{other, neither, at_most};

// The place of the first b at or behind `from`, or the end.
pub fn find_one(s: &[u8], from: usize, b: u8) -> usize
    requires { from ≤ length s.now }
    ensures { result ≡ from + run (other b) (drop from s.now) }
{
    match s[from..].iter().position(|&x| x == b) {
        Some(n) => from + n,
        None => s.len(),
    }
}

// The place of the first a or b at or behind `from`, or the end.
pub fn find_one_of(s: &[u8], from: usize, a: u8, b: u8) -> usize
    requires { from ≤ length s.now }
    ensures { result ≡ from + run (neither a b) (drop from s.now) }
{
    match s[from..].iter().position(|&x| x == a || x == b) {
        Some(n) => from + n,
        None => s.len(),
    }
}

// How many of four bytes stand before the first a or b.
pub fn count_four(s: &[u8], from: usize, a: u8, b: u8) -> usize
    requires { from + 4 ≤ length s.now }
    ensures { result ≡ at_most 4 (run (neither a b) (drop from s.now)) }
{
    let four = &s[from..from + 4];
    four.iter().position(|&x| x == a || x == b).unwrap_or(4)
}
