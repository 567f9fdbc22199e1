// Searches for one byte or either of two, sixteen bytes at a time.
//
// Long comments and strings (document 01, modules 2 and 4) spend their time in looking for a mark. A block of sixteen is compared at once; what stands in
// it, and what is left behind the last block, is looked at byte by byte. The answers are those of the plain definition, the longest front without the byte
// (`run` of crate text).
#![tactic(auto)]

mod bytewise;
mod sixteen;

ghost use Rattle.std.specs.Prelude.{◌≡◌, ◌+◌, ◌≤◌, length, drop};
ghost use Rattle.text.specs.Runs.{run};
ghost use Rattle.search.specs.inner.Others.{other, neither};

// The place of the first b at or behind `from`, or the end.
pub fn find(s: &[u8], from: usize, b: u8) -> usize
    requires { from ≤ length s.now }
    ensures { result ≡ from + run (other b) (drop from s.now) }
{
    let mut i = from;
    while 16 <= s.len() - i {
        if sixteen::has(s, i, b) {
            return bytewise::find_one(s, i, b);
        }
        i += 16;
    }
    bytewise::find_one(s, i, b)
}

// The same for the first a or b.
fn find_far(s: &[u8], from: usize, a: u8, b: u8) -> usize
    requires { from ≤ length s.now }
    ensures { result ≡ from + run (neither a b) (drop from s.now) }
{
    let mut i = from;
    while 16 <= s.len() - i {
        if sixteen::has_either(s, i, a, b) {
            return bytewise::find_one_of(s, i, a, b);
        }
        i += 16;
    }
    bytewise::find_one_of(s, i, a, b)
}

// The place of the first a or b at or behind `from`, or the end. Pieces between escapes and stars in a row are short: four bytes are looked at before any
// sixteen.
pub fn find_either(s: &[u8], from: usize, a: u8, b: u8) -> usize
    requires { from ≤ length s.now }
    ensures { result ≡ from + run (neither a b) (drop from s.now) }
{
    if s.len() - from < 4 {
        return find_far(s, from, a, b);
    }
    let n = bytewise::count_four(s, from, a, b);
    let at = from + n;
    if n < 4 {
        return at;
    }
    find_far(s, at, a, b)
}
