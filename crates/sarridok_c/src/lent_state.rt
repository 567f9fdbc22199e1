// The state that lent numbers say.
ghost use Rattle.std.specs.Prelude.{◌≡◌};
ghost use Rattle.sarridok_c.specs.Arrivals.{lent_state};

use sarridok::Arrival;
use stored::state_of;

// How many numbers a state has.
pub const NUMBERS: usize = 10;

// The state that the first ten numbers say, how many bytes are kept last.
pub fn state_in(s: &[u32]) -> Option<Arrival>
    ensures { result ≡ lent_state s.now }
{
    if s.len() < NUMBERS {
        return None;
    }
    state_of(s, s[9] as usize)
}
