// Raw strings and raw byte strings.
ghost use Rattle.std.specs.Prelude.{◌≡◌, ◌≤◌, length};
ghost use Rattle.strings.specs.Raw.{raw_end, missing, raw_of};

use crate::Literal;
use crate::literal::unclosed;
use crate::runs::{count_hashes, find_quote};
use escapes::Mode;
use text::Refusal;

// How many bytes stand before the first quote with n hashes behind it.
fn find_raw_end(t: &[u8], n: usize) -> usize
    ensures { result ≡ raw_end n t.now }
{
    let mut i = 0;
    while i < t.len() {
        let q = i + find_quote(&t[i..]);
        if t.len() <= q {
            return q;
        }
        if n <= count_hashes(&t[q + 1..]) {
            return q;
        }
        i = q + 1;
    }
    i
}

// The refusal where no string begins.
fn expected(m: Mode, place: usize) -> Refusal
    ensures { result ≡ missing m place }
{
    match m {
        Mode::Bytes => Refusal::expected_byte_string(place),
        Mode::Str => Refusal::expected_string(place),
        Mode::Char => Refusal::expected_string(place),
    }
}

// The raw string whose hashes begin at `start`.
pub fn raw(m: Mode, s: &[u8], start: usize) -> Result<Literal, Refusal>
    requires { start ≤ length s.now }
    ensures { result ≡ raw_of m start s.now }
{
    let hashes = count_hashes(&s[start..]);
    let open = start + hashes;
    if s.len() <= open {
        return Err(expected(m, open));
    }
    if s[open] != b'"' {
        return Err(expected(m, open));
    }
    let body = open + 1;
    let end = body + find_raw_end(&s[body..], hashes);
    if s.len() <= end {
        return unclosed(body);
    }
    Ok(Literal {
        len: end + 1 + hashes,
        start: body,
        end,
        decoded: end - body,
        escaped: false,
    })
}
