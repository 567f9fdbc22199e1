// Standard output through a lent buffer: each function takes the place behind what stands there, and answers the next.
// A full buffer goes to the system. What the system does with it no contract can say; the buffer and the place afterwards are `put`.
ghost use Rattle.std.specs.Prelude.{◌≡◌};
ghost use Rattle.lines.specs.Decimal.{decimal as Decimal·decimal, word_of};
ghost use Rattle.lines.specs.Out.{put_byte, put};

// The number that the system has for standard output.
pub const STDOUT_FILENO: i32 = 1;

// Writes out what stands in the buffer up to a place.
pub fn flush(out: &[u8], at: usize) -> usize
    ensures { result ≡ 0 }
{
    io::write_all(STDOUT_FILENO, crate::part(out, 0, at));
    0
}

// A full buffer is written out first, so that no caller counts room.
pub fn byte(out: &mut [u8], at: usize, b: u8) -> usize
    ensures { (out.new, result) ≡ put_byte (out.old, at) b }
{
    if at < out.len() {
        out[at] = b;
        return at + 1;
    }
    io::write_all(STDOUT_FILENO, &out[..]);
    if out.len() == 0 {
        return 0;
    }
    out[0] = b;
    1
}

// One after another, so that a full buffer is written out in between.
pub fn bytes(out: &mut [u8], at: usize, s: &[u8]) -> usize
    ensures { (out.new, result) ≡ put (out.old, at) s.now }
{
    let mut to = at;
    for b in s {
        to = byte(out, to, *b);
    }
    to
}

// A number in decimal.
pub fn number(out: &mut [u8], at: usize, n: u64) -> usize
    ensures { (out.new, result) ≡ put (out.old, at) (Decimal·decimal n) }
{
    let mut digits = [0u8; 20];
    let k = io::decimal(n, &mut digits);
    bytes(out, at, &digits[..k])
}

// A number as one more word.
pub fn word(out: &mut [u8], at: usize, n: u64) -> usize
    ensures { (out.new, result) ≡ put (out.old, at) (word_of n) }
{
    let to = byte(out, at, b' ');
    number(out, to, n)
}
