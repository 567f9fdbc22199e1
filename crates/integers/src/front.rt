// What stands in front of the digits: a sign, and the prefix of a base.
ghost use Rattle.std.specs.Prelude.{◌≡◌};
ghost use Rattle.integers.specs.Front.{sign_of, prefix_of, front_of};

use text::bytes::peek;

// Whether a minus stands there, and the place behind the sign.
#[derive(Clone, Copy)]
pub struct Sign {
    pub minus: bool,
    pub end: usize,
}

// The base that a prefix names, or 10, and the place behind the prefix.
#[derive(Clone, Copy)]
pub struct Prefix {
    pub base: u64,
    pub end: usize,
}

// Both, with the place behind them.
#[derive(Clone, Copy)]
pub struct Front {
    pub minus: bool,
    pub base: u64,
    pub end: usize,
}

// The sign at the front of the part, if there is one.
pub fn sign_of(s: &[u8]) -> Sign
    ensures { result ≡ sign_of s.now }
{
    let first = peek(s, 0);
    if first == b'+' {
        return Sign {
            minus: false,
            end: 1,
        };
    }
    if first == b'-' {
        return Sign {
            minus: true,
            end: 1,
        };
    }
    Sign {
        minus: false,
        end: 0,
    }
}

// `0b`, `0o` or `0x` at the front of the part.
fn prefix_of(s: &[u8]) -> Prefix
    ensures { result ≡ prefix_of s.now }
{
    if peek(s, 0) != b'0' {
        return Prefix { base: 10, end: 0 };
    }
    let letter = peek(s, 1);
    if letter == b'b' {
        return Prefix { base: 2, end: 2 };
    }
    if letter == b'o' {
        return Prefix { base: 8, end: 2 };
    }
    if letter == b'x' {
        return Prefix { base: 16, end: 2 };
    }
    Prefix { base: 10, end: 0 }
}

// The sign and the prefix at the front of the part.
pub fn front_of(s: &[u8]) -> Front
    ensures { result ≡ front_of s.now }
{
    let sign = sign_of(s);
    let at = sign.end;
    let prefix = prefix_of(&s[at..]);
    let end = at + prefix.end;
    Front {
        minus: sign.minus,
        base: prefix.base,
        end,
    }
}
