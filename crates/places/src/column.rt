// The column of a place.
ghost use Rattle.std.specs.Prelude.{◌≡◌};
ghost use Rattle.places.specs.Lines.{count};
ghost use Rattle.places.specs.Columns.{starts_char, column_of, chars_back};

use crate::line::line_start;
use lines::part;
use text::bytes::peek;
use text::classes::is_within;

// The first byte of a character.
pub fn starts_char(b: u8) -> bool
    ensures { result ≡ starts_char b }
{
    !is_within(0x80, 0xBF, b)
}

fn chars(s: &[u8]) -> usize
    ensures { result ≡ count starts_char s.now }
{
    s.iter().filter(|b| starts_char(**b)).count()
}

// Columns are counted from 1, in characters.
pub fn column_of(s: &[u8], place: usize) -> usize
    ensures { result ≡ column_of s.now place }
{
    let start = line_start(s, place);
    let n = chars(part(s, start, place));
    1 + n
}

// So many characters before the place, or the start of its line where there are fewer.
pub fn chars_back(s: &[u8], place: usize, n: usize) -> usize
    ensures { result ≡ chars_back s.now place n }
{
    let mut left = n;
    for before in (0..place).rev() {
        if left == 0 {
            return before + 1;
        }
        let b = peek(s, before);
        if b == b'\n' {
            return before + 1;
        }
        if starts_char(b) {
            left -= 1;
        }
    }
    0
}
