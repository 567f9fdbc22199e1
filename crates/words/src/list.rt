// A word as numbers of a tape, with commas between.
ghost use Rattle.std.specs.Prelude.{◌≡◌, length, take};
ghost use Rattle.lines.specs.Over.{over};
ghost use Rattle.words.specs.Numbers.{numbers_of, items_in, numbers_in};

use crate::small;

// How many numbers the items between commas say, with these at the front of a tape; none where an item is no number, or the tape too short.
fn items(s: &[u8], tape: &mut [u32]) -> Option<usize>
    ensures value { result ≡ items_in s.now (length tape.old) }
    ensures tape_after { tape.new ≡ over (numbers_of s.now) tape.old }
{
    let mut at = 0;
    let mut k = 0;
    loop {
        let rest = &s[at..];
        let n = small::small_of(lines::until(rest, b','))?;
        if tape.len() <= k {
            return None;
        }
        tape[k] = n;
        k += 1;
        let e = lines::find(rest, b',');
        if rest.len() <= e {
            return Some(k);
        }
        at = at + e + 1;
    }
}

// How many numbers a list has, with these at the front of a tape, and `-` has 0; none where the word is no list, or the tape too short.
// The first numbers of such a word may stand there.
pub fn numbers(s: &[u8], tape: &mut [u32]) -> Option<usize>
    ensures value { result ≡ numbers_in s.now (length tape.old) }
    ensures tape_after { tape.new ≡ over (numbers_of s.now) tape.old }
{
    if crate::is_dash(s) {
        return Some(0);
    }
    items(s, tape)
}

// The first numbers of a tape, as far as there are any.
pub fn first(tape: &[u32], k: usize) -> &[u32]
    ensures { result.now ≡ take k tape.now }
{
    &tape[..k.min(tape.len())]
}
