// Plain numbers: at most nine decimal digits, or a float of digits, a point and digits, with a quiet byte behind. The read loop takes them without the
// general token reader (document 01, modules 5 and 6), which stays their definition: proofs/PlainNumbers shows that it reads them as the same entry.
#![tactic(auto)]

ghost use Rattle.std.specs.Prelude.{◌≡◌, ◌+◌, ◌<◌, ◌^◌, length};
ghost use Rattle.plain_numbers.specs.inner.PlainNumbers.{plain_number, behind_sign};

use crate::parts::{begins_quiet, digits_len, fraction_len};
use crate::width::fit;
use integers::front::{Sign, sign_of};
use rows::kinds;
use tokens::lexeme::Lexeme;

pub mod parts;
pub mod short;
pub mod width;

fn told(len: usize, kind: u32, detail: usize) -> Lexeme
    ensures { result ≡ record { len = len; kind = kind; detail = detail } }
{
    Lexeme { len, kind, detail }
}

// What stands behind a sign.
fn behind_sign(t: &[u8], sign: Sign) -> Lexeme
    requires { sign.end + length t.now < 2 ^ 64 }
    ensures { result ≡ behind_sign sign t.now }
{
    let n = digits_len(t);
    if n == 0 {
        return told(0, 0, 0);
    }
    let rest = &t[n..];
    let fraction = fraction_len(rest);
    let len = sign.end + n;
    if 0 < fraction {
        let whole = len + fraction;
        return told(whole, kinds::FLOAT, 0);
    }
    if 9 < n {
        return told(0, 0, 0);
    }
    if begins_quiet(rest) {
        return told(len, kinds::INTEGER, fit(&t[..n], sign.minus));
    }
    told(0, 0, 0)
}

// The plain number at the front of a part; its length is 0 where there is none.
pub fn plain_number(s: &[u8]) -> Lexeme
    ensures { result ≡ plain_number s.now }
{
    let sign = sign_of(s);
    let at = sign.end;
    behind_sign(&s[at..], sign)
}
