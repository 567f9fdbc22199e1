// The bytes of change request 3: those that decide, those that close an entry, and those behind which no name, number or word looks.
ghost use Rattle.std.specs.Prelude.{◌≡◌};
ghost use Rattle.settled.specs.Bytes.{stops_byte, decides_byte, closes_byte};
ghost use Rattle.settled.specs.Settled.{stop_from};

use quiet::bytes::is_quiet;
use text::classes::is_ascii_raw;

// A quiet byte or a `/`.
pub fn is_decider(b: u8) -> bool
    ensures { result ≡ decides_byte b }
{
    if is_quiet(b) {
        return true;
    }
    b == b'/'
}

// A comma, a colon, a bracket or a quote.
pub fn is_closer(b: u8) -> bool
    ensures { result ≡ closes_byte b }
{
    if b == b',' {
        return true;
    }
    if b == b':' {
        return true;
    }
    if b == b'(' {
        return true;
    }
    if b == b')' {
        return true;
    }
    if b == b'[' {
        return true;
    }
    if b == b']' {
        return true;
    }
    if b == b'{' {
        return true;
    }
    if b == b'}' {
        return true;
    }
    if b == b'"' {
        return true;
    }
    if b == b'\'' {
        return true;
    }
    false
}

// No character of a name or raw name, and neither `#` nor `\`.
pub fn is_stop(b: u8) -> bool
    ensures { result ≡ stops_byte b }
{
    if 0x80 <= b {
        return false;
    }
    if b == b'#' {
        return false;
    }
    if b == b'\\' {
        return false;
    }
    if is_ascii_raw(b as u32) {
        return false;
    }
    true
}

// A stop byte stands at n or behind.
pub fn stops_from(p: &[u8], n: usize) -> bool
    ensures { result ≡ stop_from n p.now }
{
    for i in n..p.len() {
        if is_stop(p[i]) {
            return true;
        }
    }
    false
}
