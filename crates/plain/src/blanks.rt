// Whitespace of one byte.
ghost use Rattle.std.specs.Prelude.{◌≡◌};
ghost use Rattle.text.specs.Classes.{blank1};
ghost use Rattle.text.specs.Runs.{run};

use comments::is_blank;

// How many blanks the part begins with.
pub fn count_blanks(s: &[u8]) -> usize
    ensures { result ≡ run blank1 s.now }
{
    s.iter().position(|&b| !is_blank(b)).unwrap_or(s.len())
}
