// The answer of a list of integers.
ghost use Rattle.std.specs.Prelude.{◌≡◌};
ghost use Rattle.lines.specs.Out.{put};
ghost use Rattle.show.specs.Many.{coded_text, many_text};

use lines::out;

// A magnitude and its code behind a separator.
fn coded(o: &mut [u8], at: usize, between: u8, magnitude: u64, code: u8) -> usize
    ensures { (o.new, result) ≡ put (o.old, at) (coded_text between magnitude code) }
{
    let a = out::byte(o, at, between);
    let b = out::number(o, a, magnitude);
    out::word(o, b, code as u64)
}

// One magnitude and its code for each integer, as far as both slices go.
pub fn integers(o: &mut [u8], at: usize, magnitudes: &[u64], codes: &[u8]) -> usize
    ensures { (o.new, result) ≡ put (o.old, at) (many_text magnitudes.now codes.now) }
{
    let mut to = out::bytes(o, at, b"ok");
    let mut between = b' ';
    for i in 0..magnitudes.len().min(codes.len()) {
        to = coded(o, to, between, magnitudes[i], codes[i]);
        between = b';';
    }
    to
}
