// Whether a byte stands among sixteen. The loop compiles to one comparison of sixteen bytes: it has no early way out.
ghost use Rattle.std.specs.Prelude.{◌≡◌, ◌+◌, ◌≤◌, ltb, length, drop};
ghost use Rattle.text.specs.Runs.{run};
ghost use Rattle.search.specs.inner.Others.{other, neither};

// The first b at or behind `at` is fewer than sixteen bytes away.
pub fn has(s: &[u8], at: usize, b: u8) -> bool
    requires { at + 16 ≤ length s.now }
    ensures { result ≡ ltb (run (other b) (drop at s.now)) 16 }
{
    let mut found = false;
    for k in 0..16 {
        if s[at + k] == b {
            found = true;
        }
    }
    found
}

// The first a or b is.
pub fn has_either(s: &[u8], at: usize, a: u8, b: u8) -> bool
    requires { at + 16 ≤ length s.now }
    ensures { result ≡ ltb (run (neither a b) (drop at s.now)) 16 }
{
    if has(s, at, a) {
        return true;
    }
    has(s, at, b)
}
