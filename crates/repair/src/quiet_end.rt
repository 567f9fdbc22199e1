// The last quiet byte before a cut (document 01, "Repair").
ghost use Rattle.std.specs.Prelude.{◌≡◌};
ghost use Rattle.reading.specs.Owed.{quiet_byte};
ghost use Rattle.reading.specs.Kept.{last_quiet};

use quiet::bytes::is_quiet;

// How many bytes reach to the last quiet one, and it with them; searched from the end, since it is near.
pub fn last_quiet(s: &[u8]) -> usize
    ensures { result ≡ last_quiet quiet_byte s.now }
{
    match s.iter().rposition(|byte| is_quiet(*byte)) {
        Some(i) => i + 1,
        None => 0,
    }
}
