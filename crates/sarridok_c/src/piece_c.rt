// `piece`: 0, or the refusal behind the entries; how many there are and the state behind the piece go into lent numbers.
ghost use Rattle.std.specs.Prelude.{◌≡◌, length};
ghost use Rattle.pieces.specs.Pieces.{kept_in, laid_in};
ghost use Rattle.rows.specs.Rows.{room_of};
ghost use Rattle.sarridok_c.specs.Arrivals.{outcome_count, outcome_word, piece_numbered, state_after};
ghost use Rattle.sarridok_c.specs.Packed.{lent_after, packed};
ghost use Rattle.sarridok_c.specs.inner.Answered.{arrived_count, arrived_state, arrived_word};

use crate::lent_state::state_in;
use crate::packing::refused;
use sarridok::Arrived;
use stored::store;
use text::Refusal;

fn word(answer: Arrived, state: &mut [u32], count: &mut u64) -> u64
    ensures { (result ≡ arrived_word answer) × (state.new ≡ arrived_state answer state.old) × (count.new ≡ arrived_count answer count.old) }
{
    match answer {
        Arrived::Given(n, next) => {
            store(next, state);
            *count = n as u64;
            0
        }
        Arrived::Stopped(n, refusal, next) => {
            store(next, state);
            *count = n as u64;
            refused(refusal)
        }
        Arrived::Refused(refusal) => refused(refusal),
    }
}

// A piece of n bytes, which the host has put behind what is kept at the buffer's front. Its answer is 0 or a refusal; unless that is 22 or 23, the number of entries at
// the tape's front, the state and what is kept are written.
pub fn sarridok_piece(
    state: &mut [u32],
    buffer: &mut [u8],
    n: usize,
    tape: &mut [u32],
    count: &mut u64,
) -> u64
    ensures answer { result ≡ packed outcome_word (piece_numbered state.old buffer.old n (room_of (length tape.old))) }
    ensures state { state.new ≡
        state_after (piece_numbered state.old buffer.old n (room_of (length tape.old))) state.old }
    ensures kept { buffer.new ≡
        kept_in (piece_numbered state.old buffer.old n (room_of (length tape.old))) buffer.old }
    ensures entries { tape.new ≡
        laid_in (piece_numbered state.old buffer.old n (room_of (length tape.old))) tape.old }
    ensures count { count.new ≡
        lent_after outcome_count (piece_numbered state.old buffer.old n (room_of (length tape.old))) count.old }
{
    let lent = state_in(&state[..]);
    match lent {
        Some(a) => word(sarridok::piece(a, buffer, n, tape), state, count),
        None => refused(Refusal::not_in_order()),
    }
}
