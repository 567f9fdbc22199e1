// Plain names at the front of a part.
ghost use Rattle.std.specs.Prelude.{◌≡◌, ◌<◌, length};
ghost use Rattle.names.specs.Classify.{begins_float};
ghost use Rattle.plain_names.specs.inner.PlainNames.{plain_name};
ghost use Rattle.text.specs.Classes.{ascii_first, ascii_next};
ghost use Rattle.text.specs.Runs.{run};

use names::starts::starts_with3;
use quiet::bytes::is_quiet;
use text::classes::{is_ascii_first, is_ascii_next};

// How many letters, digits and `_` the part begins with.
fn name_len(s: &[u8]) -> usize
    ensures { result ≡ run ascii_next s.now }
{
    s.iter()
        .position(|&b| !is_ascii_next(u32::from(b)))
        .unwrap_or(s.len())
}

// Whether the part begins with `inf` or `NaN`: the first byte decides nearly always.
fn begins_float(s: &[u8]) -> bool
    requires { 0 < length s.now }
    ensures { result ≡ begins_float s.now }
{
    if s[0] == b'i' {
        return starts_with3(s, b'i', b'n', b'f');
    }
    if s[0] == b'N' {
        return starts_with3(s, b'N', b'a', b'N');
    }
    false
}

// Whether a name may begin with the byte: most marks, digits and quotes stand below the letters, and take one test.
fn begins_name(a: u8) -> bool
    ensures { result ≡ ascii_first a }
{
    if a < b'A' {
        return false;
    }
    is_ascii_first(a as u32)
}

// The length of the plain name at the front, 0 where there is none.
pub fn plain_name(s: &[u8]) -> usize
    requires { 0 < length s.now }
    ensures { result ≡ plain_name s.now }
{
    if !begins_name(s[0]) {
        return 0;
    }
    let len = 1 + name_len(&s[1..]);
    if s.len() <= len {
        return 0;
    }
    if !is_quiet(s[len]) {
        return 0;
    }
    if begins_float(s) {
        return 0;
    }
    len
}
