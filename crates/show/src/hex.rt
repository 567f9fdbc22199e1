// Bytes in lower-case hex.
ghost use Rattle.std.specs.Prelude.{◌≡◌};
ghost use Rattle.lines.specs.Out.{put};
ghost use Rattle.show.specs.Hexes.{digit_of, hex_text};

use lines::out;

// The digit for the low four bits.
fn digit(n: u8) -> u8
    ensures { result ≡ digit_of n }
{
    let k = n % 16;
    if k < 10 {
        return b'0' + k;
    }
    87 + k
}

// Two digits a byte, the high one first.
pub fn bytes(o: &mut [u8], at: usize, s: &[u8]) -> usize
    ensures { (o.new, result) ≡ put (o.old, at) (hex_text s.now) }
{
    let mut to = at;
    for b in s {
        let high = out::byte(o, to, digit(*b / 16));
        to = out::byte(o, high, digit(*b));
    }
    to
}
