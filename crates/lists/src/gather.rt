// The list of all integers among the entries of a tape.
ghost use Rattle.std.specs.Prelude.{◌<◌, ◌≡◌, length};
ghost use Rattle.lines.specs.Over.{over};
ghost use Rattle.rows.specs.Rows.{room_of, entry_at};
ghost use Rattle.lists.specs.Gathers.{rows_of, gathered, noted as Gathers·noted};

use rows::{kinds, row};

// How many of n entries are looked at.
#[tactic(auto, unfolding(crate::specs::Gathers::rows_of))]
fn rows_of(tape: &[u32], n: usize) -> usize
    ensures { result ≡ rows_of n tape.now }
{
    lines::least(lines::least(n, 65536), row::room(tape))
}

// The number of entry i behind the first k of a list, where it is an integer's and there is room; answers how many there are then.
fn noted(tape: &[u32], i: usize, list: &mut [u32], k: usize) -> usize
    requires { (i < room_of (length tape.now)) × (i < 65536) }
    ensures { (list.new, result) ≡ Gathers·noted (entry_at tape.now i) i (list.old, k) }
{
    if list.len() <= k {
        return k;
    }
    let e = row::entry(tape, i);
    if e.kind != kinds::INTEGER {
        return k;
    }
    list[k] = i as u32;
    k + 1
}

// The numbers of all integers among the first n entries, to the front of a list; answers how many.
pub fn gather(tape: &[u32], n: usize, list: &mut [u32]) -> usize
    ensures value { result ≡ length (gathered tape.now n (length list.old)) }
    ensures list_after { list.new ≡ over (gathered tape.now n (length list.old)) list.old }
{
    let mut k = 0;
    for i in 0..rows_of(tape, n) {
        k = noted(tape, i, list, k);
    }
    k
}
