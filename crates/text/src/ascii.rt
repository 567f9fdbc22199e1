// Runs of ASCII, which the judgement of a text passes eight bytes at a time.
ghost use Rattle.std.specs.Prelude.{◌≡◌, ◌+◌, ◌≤◌, length, drop};
ghost use Rattle.text.specs.Runs.{run, ascii, ascii_for};

// Whether the eight bytes at `at` are all ASCII.
fn ascii8(s: &[u8], at: usize) -> bool
    requires { at + 8 ≤ length s.now }
    ensures { result ≡ ascii_for s.now at 8 }
{
    let m = s[at]
        | s[at + 1]
        | s[at + 2]
        | s[at + 3]
        | s[at + 4]
        | s[at + 5]
        | s[at + 6]
        | s[at + 7];
    m < 0x80
}

// The place behind the run of ASCII at `at`.
fn run1(s: &[u8], at: usize) -> usize
    requires { at ≤ length s.now }
    ensures { result ≡ at + run ascii (drop at s.now) }
{
    for i in at..s.len() {
        if !s[i].is_ascii() {
            return i;
        }
    }
    s.len()
}

// The same, eight bytes at a time.
pub fn run8(s: &[u8], at: usize) -> usize
    requires { at ≤ length s.now }
    ensures { result ≡ at + run ascii (drop at s.now) }
{
    let mut i = at;
    while 8 <= s.len() - i {
        if !ascii8(s, i) {
            return run1(s, i);
        }
        i += 8;
    }
    run1(s, i)
}
