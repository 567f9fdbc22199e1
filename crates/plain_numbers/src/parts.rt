// The parts of a plain number, each at the front of what is left.
ghost use Rattle.std.specs.Prelude.{◌≡◌, get_or};
ghost use Rattle.reading.specs.Owed.{quiet_byte};
ghost use Rattle.text.specs.Classes.{digit};
ghost use Rattle.text.specs.Runs.{run};
ghost use Rattle.plain_numbers.specs.inner.PlainNumbers.{fraction_of};

use quiet::bytes::is_quiet;
use text::classes::is_digit;

// The part begins with a quiet byte; an empty one doesn't.
pub fn begins_quiet(s: &[u8]) -> bool
    ensures { result ≡ quiet_byte (get_or s.now 0 0) }
{
    if s.len() == 0 {
        return false;
    }
    is_quiet(s[0])
}

// How many digits the part begins with.
pub fn digits_len(s: &[u8]) -> usize
    ensures { result ≡ run digit s.now }
{
    s.iter().take_while(|c| is_digit(**c)).count()
}

// How many bytes a point and one or more digits before a quiet byte are, and 0 where the part does not begin with them.
pub fn fraction_len(s: &[u8]) -> usize
    ensures { result ≡ fraction_of s.now }
{
    if s.len() == 0 {
        return 0;
    }
    if s[0] != b'.' {
        return 0;
    }
    let n = digits_len(&s[1..]);
    if n == 0 {
        return 0;
    }
    let len = n + 1;
    if begins_quiet(&s[len..]) {
        return len;
    }
    0
}
