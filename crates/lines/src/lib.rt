// Lines in and out of a program, over buffers that it lends: parts, searches, standard input to its end, numbers as text. No module of document 01.
#![tactic(auto)]

pub mod input;
pub mod out;

ghost use Rattle.std.specs.Prelude.{◌+◌, ◌-◌, min, ◌≡◌, take, drop};
ghost use Rattle.lines.specs.Find.{find_of};

// The smaller of two numbers.
pub fn least(a: usize, b: usize) -> usize
    ensures { result ≡ min a b }
{
    a.min(b)
}

// The bytes from a place to another, as far as there are any.
pub fn part(s: &[u8], a: usize, e: usize) -> &[u8]
    ensures { result.now ≡ take (e - a) (drop a s.now) }
{
    let to = least(e, s.len());
    if a <= to {
        return &s[a..to];
    }
    &s[0..0]
}

// Where the first b stands, or the end.
pub fn find(s: &[u8], b: u8) -> usize
    ensures { result ≡ find_of b s.now }
{
    s.iter().position(|x| *x == b).unwrap_or(s.len())
}

// The bytes before the first b, or all.
pub fn until(s: &[u8], b: u8) -> &[u8]
    ensures { result.now ≡ take (find_of b s.now) s.now }
{
    part(s, 0, find(s, b))
}

// The bytes behind the first b, if there is one.
pub fn past(s: &[u8], b: u8) -> &[u8]
    ensures { result.now ≡ drop (find_of b s.now + 1) s.now }
{
    let e = find(s, b);
    if e < s.len() {
        let k = e + 1;
        return &s[k..];
    }
    &s[0..0]
}

// Where the line at the front ends: at its LF, or with the last byte.
pub fn line_end(s: &[u8]) -> usize
    ensures { result ≡ find_of 10 s.now }
{
    find(s, b'\n')
}
