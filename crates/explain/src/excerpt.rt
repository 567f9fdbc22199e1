// The line of a place, as much of it as is shown, and a caret under the place.
ghost use Rattle.std.specs.Prelude.{◌≡◌, ◌≤◌, max, length};
ghost use Rattle.lines.specs.Out.{put};
ghost use Rattle.explain.specs.Excerpts.{character_text, characters_text, under_text, caret_text, margin_text, excerpt_text};

use lines::{out, part};
use places::column::{chars_back, starts_char};
use places::line::{line_end, line_start};
use places::shown::is_shown;
use text::utf8;

// At most so many characters before the place, and so many in all.
const BEFORE: usize = 80;

const SHOWN: usize = 120;

// The character at the front of s: as it is, or U+FFFD where a terminal would not show it in one cell.
fn character(o: &mut [u8], at: usize, s: &[u8], n: usize) -> usize
    ensures { (o.new, result) ≡ put (o.old, at) (character_text n s.now) }
{
    if 0 < n {
        if is_shown(utf8::code_point(s)) {
            return out::bytes(o, at, part(s, 0, n));
        }
    }
    out::bytes(o, at, b"\xEF\xBF\xBD")
}

// A byte that begins no character counts as one.
fn step(n: usize) -> usize
    ensures { result ≡ max 1 n }
{
    if n == 0 { 1 } else { n }
}

// The characters of a part, and `...` for those that are too many.
pub fn characters(o: &mut [u8], at: usize, s: &[u8]) -> usize
    ensures { (o.new, result) ≡ put (o.old, at) (characters_text 120 s.now) }
{
    let mut to = at;
    let mut i = 0;
    let mut left = SHOWN;
    while i < s.len() {
        if left == 0 {
            return out::bytes(o, to, b"...");
        }
        let rest = &s[i..];
        let n = utf8::char_len(rest);
        to = character(o, to, rest, n);
        i += step(n);
        left -= 1;
    }
    to
}

// What stands under a byte: nothing where it begins no character, a tab under a tab, else a space.
fn under(o: &mut [u8], at: usize, b: u8) -> usize
    ensures { (o.new, result) ≡ put (o.old, at) (under_text b) }
{
    if b == b'\t' {
        return out::byte(o, at, b'\t');
    }
    if starts_char(b) {
        return out::byte(o, at, b' ');
    }
    at
}

fn caret(o: &mut [u8], at: usize, before: &[u8]) -> usize
    ensures { (o.new, result) ≡ put (o.old, at) (caret_text before.now) }
{
    let mut to = at;
    for i in 0..before.len() {
        to = under(o, to, before[i]);
    }
    out::byte(o, to, b'^')
}

// Both lines are set in; what is left out in front is three cells in both.
fn margin(o: &mut [u8], at: usize, cut: bool, b: u8) -> usize
    ensures { (o.new, result) ≡ put (o.old, at) (margin_text cut b) }
{
    let a = out::bytes(o, at, b"    ");
    if cut {
        let c = out::byte(o, a, b);
        let d = out::byte(o, c, b);
        return out::byte(o, d, b);
    }
    a
}

// Both lines, from a place of the output on: where they end there.
pub fn excerpt(o: &mut [u8], at: usize, s: &[u8], place: usize) -> usize
    requires { place ≤ length s.now }
    ensures { (o.new, result) ≡ put (o.old, at) (excerpt_text s.now place) }
{
    let from = chars_back(s, place, BEFORE);
    let cut = line_start(s, place) < from;
    let a = margin(o, at, cut, b'.');
    let b = characters(o, a, part(s, from, line_end(s, place)));
    let c = out::byte(o, b, b'\n');
    let d = margin(o, c, cut, b' ');
    let e = caret(o, d, part(s, from, place));
    out::byte(o, e, b'\n')
}
