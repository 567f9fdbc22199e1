// A float at a place that a caller names, where a token need not begin.
ghost use Rattle.std.specs.Prelude.{◌≡◌};
ghost use Rattle.floats.specs.Float.{float_anew};

use crate::float::{FloatSpan, float, special};
use text::Refusal;
use text::bytes::peek;

// What the crate's `float` reads at the front of a part: an underscore in front is 8, and inf and NaN need no sign.
pub fn float_anew(s: &[u8]) -> Result<FloatSpan, Refusal>
    ensures { result ≡ float_anew s.now }
{
    if peek(s, 0) == b'_' {
        return Err(Refusal::underscore_at_beginning(0));
    }
    let found = special(s);
    if found.end == 0 {
        return float(s);
    }
    Ok(FloatSpan {
        len: found.end,
        suffix: found.code,
    })
}
