// `begin`: 0; the state's numbers are written.
ghost use Rattle.std.specs.Prelude.{◌≡◌, length};
ghost use Rattle.pieces.specs.Pieces.{begun};
ghost use Rattle.stored.specs.Numbers.{stored_in};
ghost use Rattle.sarridok_c.specs.Arrivals.{begin_numbered};
ghost use Rattle.sarridok_c.specs.Packed.{packed};
ghost use Rattle.sarridok_c.specs.Words.{done_word};

use crate::lent_state::NUMBERS;
use crate::packing::refused;
use stored::store;
use text::Refusal;

// The state before a text's first byte. Its answer is 0; the ten numbers are written.
pub fn sarridok_begin(state: &mut [u32]) -> u64
    ensures { (result ≡ packed done_word (begin_numbered (length state.old))) × (state.new ≡ stored_in begun state.old) }
{
    if state.len() < NUMBERS {
        return refused(Refusal::no_room());
    }
    store(sarridok::begin(), state);
    0
}
