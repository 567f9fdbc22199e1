// A word as a number of a tape.
ghost use Rattle.std.specs.Prelude.{◌≡◌};
ghost use Rattle.words.specs.Small.{small_of};

use crate::number;

// The decimal number below 2^32 that a word says.
pub fn small_of(s: &[u8]) -> Option<u32>
    ensures { result ≡ small_of s.now }
{
    u32::try_from(number::decimal_of(s)?).ok()
}
