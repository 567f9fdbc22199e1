// `finish`: 0, or the refusal behind the entries; how many there are goes into a lent number.
ghost use Rattle.std.specs.Prelude.{◌≡◌, length};
ghost use Rattle.pieces.specs.Ends.{rest_laid};
ghost use Rattle.rows.specs.Rows.{room_of};
ghost use Rattle.sarridok_c.specs.Arrivals.{finish_numbered, rest_count, rest_word};
ghost use Rattle.sarridok_c.specs.Packed.{lent_after, packed};
ghost use Rattle.sarridok_c.specs.inner.Answered.{ended_count, ended_word};

use crate::lent_state::state_in;
use crate::packing::refused;
use sarridok::Ended;
use text::Refusal;

fn word(answer: Ended, count: &mut u64) -> u64
    ensures { (result ≡ ended_word answer) × (count.new ≡ ended_count answer count.old) }
{
    match answer {
        Ended::Given(n) => {
            *count = n as u64;
            0
        }
        Ended::Stopped(n, refusal) => {
            *count = n as u64;
            refused(refusal)
        }
        Ended::Refused(refusal) => refused(refusal),
    }
}

// The end of the text, with what is kept at the buffer's front. Its answer is 0 or a refusal; unless that is 22 or 23, the number of entries at the tape's front is
// written.
pub fn sarridok_finish(state: &[u32], buffer: &[u8], tape: &mut [u32], count: &mut u64) -> u64
    ensures answer { result ≡ packed rest_word (finish_numbered state.now buffer.now (room_of (length tape.old))) }
    ensures entries { tape.new ≡
        rest_laid (finish_numbered state.now buffer.now (room_of (length tape.old))) tape.old }
    ensures count { count.new ≡
        lent_after rest_count (finish_numbered state.now buffer.now (room_of (length tape.old))) count.old }
{
    let lent = state_in(state);
    match lent {
        Some(a) => word(sarridok::finish(a, buffer, tape), count),
        None => refused(Refusal::not_in_order()),
    }
}
