// Where the new reading joins the old entries: nothing is written.
ghost use Rattle.std.specs.Prelude.{◌≡◌, ◌≤◌, ◌<◌, ◌+◌, ◌-◌, ◌^◌, length};
ghost use Rattle.reading.specs.Readings.{read_from};
ghost use Rattle.rows.specs.Rows.{room_of, entries_of};
ghost use Rattle.tokens.specs.Ron.{ron_token};
ghost use Rattle.repair.specs.Repair.{leading, scan_of};
ghost use Rattle.repair.specs.inner.Steps.{starts_before};

use crate::seeking::{Met, meet};
use text::Refusal;
use text::refusal::placed_behind;
use tokens::following::{Following, next_token};

// The new reading from a place on, up to the entry where it joins: how many new entries stand before it, and the number of the old entry there; or what the
// new text is refused with before. The search over the old entries only goes forward, and it begins
// behind the first j, none of which can be joined: they start before b.
pub fn find_join(
    text: &[u8],
    from: usize,
    tape: &[u32],
    count: usize,
    j: usize,
    b: usize,
    e: usize,
) -> Result<(usize, usize), Refusal>
    requires { (length text.now ≤ 65536) × (from ≤ length text.now) × (count ≤ room_of (length tape.now))
        × (length text.now - e + b < 2 ^ 64) × (j ≤ leading (starts_before b) (entries_of count tape.now)) }
    ensures { result ≡ scan_of (entries_of count tape.now) b e 0 (read_from ron_token text.now from) }
{
    let mut at = from;
    let mut n = 0;
    let mut i = j;
    while at < text.len() {
        let found = next_token(&text[at..]);
        match found {
            Following::Token(g, l) => {
                let start = at + g;
                let met = meet(tape, count, i, g, start, b, e);
                match met {
                    Met::At(k) => {
                        return Ok((n, k));
                    }
                    Met::Next(k) => {
                        i = k;
                        at = start + l.len;
                        n += 1;
                    }
                }
            }
            Following::End => {
                return Ok((n, count));
            }
            Following::Refused(refusal) => {
                return Err(placed_behind(refusal, at));
            }
        }
    }
    Ok((n, count))
}
