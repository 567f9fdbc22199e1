// The tape's part from the first entry not kept on, made that of the new text.
ghost use Rattle.std.specs.Prelude.{◌≡◌, ◌++◌, map, ◌≤◌, ◌+◌, ◌*◌, length, take, drop};
ghost use Rattle.reading.specs.Readings.{read_from, entries};
ghost use Rattle.rows.specs.Rows.{width, room_of, entries_of, laid};
ghost use Rattle.tokens.specs.Ron.{ron_token};
ghost use Rattle.repair.specs.Repair.{cleared};
ghost use Rattle.repair.specs.inner.Steps.{Movable, clipped_from};

use crate::moving::{clear, shift};
use read::fill::fill;

// What the part is to hold: n entries of the text from a place on, then its own m rows from row f on, moved from b to e.
#[derive(Clone, Copy)]
pub struct Rest {
    pub from: usize,
    pub n: usize,
    pub f: usize,
    pub m: usize,
    pub b: usize,
    pub e: usize,
}

// The n new entries, behind them the m old ones from row f on, and zeros up to where these ended.
pub fn rewrite(part: &mut [u32], text: &[u8], rest: Rest)
    requires { (length text.now ≤ 65536) × (rest.from ≤ length text.now)
        × (rest.n ≤ length (entries (read_from ron_token text.now rest.from))) × (rest.n + rest.m ≤ room_of (length part.old))
        × (rest.f + rest.m ≤ room_of (length part.old)) × Movable rest.b rest.e (entries_of rest.m (drop (width * rest.f) part.old)) }
    ensures { part.new ≡ laid (take rest.n (entries (read_from ron_token text.now rest.from))
        ++ map (clipped_from rest.b rest.e) (entries_of rest.m (drop (width * rest.f) part.old)))
        (cleared (rest.f + rest.m) part.old) }
{
    shift(part, rest.m, rest.f, rest.n, rest.b, rest.e);
    fill(text, rest.from, part, rest.n);
    clear(part, rest.n + rest.m, rest.f + rest.m);
}
