// The line of a place.
ghost use Rattle.std.specs.Prelude.{◌≡◌, ◌≤◌, length};
ghost use Rattle.places.specs.Lines.{count, line_feed, line_of, line_start, feed_from, line_end};

use lines::part;
use text::bytes::peek;

fn feeds(s: &[u8]) -> usize
    ensures { result ≡ count line_feed s.now }
{
    s.iter().filter(|b| **b == b'\n').count()
}

// Lines are counted from 1.
pub fn line_of(s: &[u8], place: usize) -> usize
    ensures { result ≡ line_of s.now place }
{
    let n = feeds(part(s, 0, place));
    1 + n
}

// Behind the last LF before the place.
pub fn line_start(s: &[u8], place: usize) -> usize
    ensures { result ≡ line_start s.now place }
{
    for before in (0..place).rev() {
        if peek(s, before) == b'\n' {
            return before + 1;
        }
    }
    0
}

// The first LF at or behind the place, or the end.
fn feed_from(s: &[u8], place: usize) -> usize
    requires { place ≤ length s.now }
    ensures { result ≡ feed_from s.now place }
{
    let n = lines::line_end(&s[place..]);
    place + n
}

// A CR at the line's end is left out.
pub fn line_end(s: &[u8], place: usize) -> usize
    requires { place ≤ length s.now }
    ensures { result ≡ line_end s.now place }
{
    let e = feed_from(s, place);
    if e == 0 {
        return 0;
    }
    let before = e - 1;
    if peek(s, before) == b'\r' {
        return before;
    }
    e
}
