// How deep the entries of a tape are nested, for people (program explain): brackets open at once, at most. proofs/DepthMeans: it is exactly the most open
// brackets, and within the limit of a walk that accepts (document 01, module 10).
#![tactic(auto)]

ghost use Rattle.std.specs.Prelude.{◌≡◌, ◌+◌, ◌^◌, ◌<◌, ◌≤◌, length};
ghost use Rattle.rows.specs.Rows.{room_of, entries_of};
ghost use Rattle.grammar.specs.Kinds.{kinds_of};
ghost use Rattle.grammar.specs.Refused.{open_behind};
ghost use Rattle.depth.specs.Depth.{deepest_of};

use grammar::kinds::{Side, kind_of, side_of};
use rows::row;

// How many brackets are open behind an entry on such a side.
fn open_behind(side: Side, n: usize) -> usize
    requires { n + 1 < 2 ^ 64 }
    ensures { result ≡ open_behind side n }
{
    match side {
        Side::Opens => n + 1,
        Side::Closes => n.saturating_sub(1),
        Side::Neither => n,
    }
}

// The most brackets that are open at once in the first `count` entries.
pub fn deepest(tape: &[u32], count: usize) -> usize
    requires { count ≤ room_of (length tape.now) }
    ensures { result ≡ deepest_of (kinds_of (entries_of count tape.now)) }
{
    let mut deep: usize = 0;
    let mut most: usize = 0;
    for i in 0..count {
        let kind = kind_of(row::entry(tape, i).kind);
        deep = open_behind(side_of(kind), deep);
        most = most.max(deep);
    }
    most
}
