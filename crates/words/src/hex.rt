// A word as bytes in lower-case hex.
ghost use Rattle.std.specs.Prelude.{◌≡◌, length};
ghost use Rattle.lines.specs.Over.{over};
ghost use Rattle.words.specs.Digit.{nibble_of};
ghost use Rattle.words.specs.Hex.{pair_of, pairs as Hex·pairs, pairs_in, hex_in};

// What a digit says, or 16.
fn nibble(a: u8) -> u32
    ensures { result ≡ nibble_of a }
{
    if a < b'0' {
        return 16;
    }
    if a <= b'9' {
        return (a - b'0') as u32;
    }
    if a < b'a' {
        return 16;
    }
    if a <= b'f' {
        return (a - 87) as u32;
    }
    16
}

// The byte that two digits say, or 256.
fn pair(a: u8, b: u8) -> u32
    ensures { result ≡ pair_of a b }
{
    let x = nibble(a);
    let y = nibble(b);
    if 16 <= x {
        return 256;
    }
    if 16 <= y {
        return 256;
    }
    x * 16 + y
}

// How many bytes the pairs of digits say, with these at the front of a buffer; none where a pair is no hex, or the buffer too short.
fn pairs(s: &[u8], buf: &mut [u8]) -> Option<usize>
    ensures value { result ≡ pairs_in s.now (length buf.old) }
    ensures buf_after { buf.new ≡ over (Hex·pairs s.now) buf.old }
{
    let n = s.len() / 2;
    for i in 0..n {
        let k = 2 * i;
        let b = pair(s[k], s[k + 1]);
        if 255 < b {
            return None;
        }
        if buf.len() <= i {
            return None;
        }
        buf[i] = b as u8;
    }
    if s.len() % 2 == 1 {
        return None;
    }
    Some(n)
}

// How many bytes a word says, with these at the front of a buffer; none where the word is no hex, or the buffer too short.
// What the first pairs of such a word say may stand there.
pub fn bytes(s: &[u8], buf: &mut [u8]) -> Option<usize>
    ensures value { result ≡ hex_in s.now (length buf.old) }
    ensures buf_after { buf.new ≡ over (Hex·pairs s.now) buf.old }
{
    if crate::is_dash(s) {
        return Some(0);
    }
    if s.is_empty() {
        return None;
    }
    pairs(s, buf)
}
