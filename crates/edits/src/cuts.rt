// A cut of an old text, and the new text that it makes.
ghost use Rattle.std.specs.Prelude.{◌+◌, ◌-◌, ◌≤◌, ◌≡◌, length, take, drop};
ghost use Rattle.lines.specs.Over.{over};
ghost use Rattle.edits.specs.Repairs.{both_texts};

// The tape's count, the old length, and the cut's ends.
#[derive(Clone, Copy)]
pub struct Cut {
    pub count: usize,
    pub old: usize,
    pub a: usize,
    pub b: usize,
}

// Behind the old text of n bytes, the text that an edit makes of it: its front, the k new bytes, which stand there already, and its rest.
pub fn make(s: &mut [u8], n: usize, k: usize, a: usize, b: usize)
    requires { (a ≤ b) × (b ≤ n) × (n + a + k + (n - b) ≤ length s.old) }
    ensures { s.new ≡ over (both_texts a b (take k (drop (n + a) s.old)) (take n s.old)) s.old }
{
    s.copy_within(0..a, n);
    s.copy_within(b..n, n + a + k);
}
