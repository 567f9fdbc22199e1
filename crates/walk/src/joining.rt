// The links of entries that are a document.
ghost use Rattle.std.specs.Prelude.{◌≡◌, ◌≤◌, length};
ghost use Rattle.rows.specs.Rows.{room_of, entries_of};
ghost use Rattle.grammar.specs.Kinds.{kinds_of};
ghost use Rattle.grammar.specs.Walk.{walk_of, linked_of};

use grammar::kinds::{Side, side_at};
use rows::row;

// The entry numbers of the open brackets lie in `open`, `depth` of them, since nothing here takes heap memory; an accepted walk has no more than 128.
pub fn join(tape: &[u32], count: usize, links: &mut [u32])
    requires { (count ≤ room_of (length tape.now)) × (count ≤ length links.old) × (count ≤ 65536)
        × (walk_of (kinds_of (entries_of count tape.now)) 128 ≡ Ok tt) }
    ensures { links.new ≡ linked_of (kinds_of (entries_of count tape.now)) links.old }
{
    let mut open = [0usize; 128];
    let mut depth: usize = 0;
    for i in 0..count {
        match side_at(row::entry(tape, i).kind) {
            Side::Opens => {
                links[i] = i as u32;
                open[depth] = i;
                depth += 1;
                continue;
            }
            Side::Closes => {
                depth -= 1;
                let j = open[depth];
                links[i] = j as u32;
                links[j] = i as u32;
                continue;
            }
            Side::Neither => {
                links[i] = i as u32;
                continue;
            }
        }
    }
}
