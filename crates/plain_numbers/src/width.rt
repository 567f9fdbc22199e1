// The width of a plain integer.
ghost use Rattle.std.specs.Prelude.{◌≡◌, ◌≤◌, length};
ghost use Rattle.text.specs.Classes.{digit};
ghost use Rattle.text.specs.Runs.{run};
ghost use Rattle.digits.specs.Value.{value_of};
ghost use Rattle.integers.specs.Width.{code_of, first_fit};

use integers::width::{code_of, first_fit};

// The value of digits, at most nine.
fn value(s: &[u8]) -> u32
    requires { (length s.now ≤ 9) × (run digit s.now ≡ length s.now) }
    ensures { result ≡ value_of 10 s.now }
{
    let mut acc: u32 = 0;
    for &c in s {
        let d = c - b'0';
        let product = acc * 10;
        acc = product + d as u32;
    }
    acc
}

// The number of the first width that fits.
fn fit_code(minus: bool, magnitude: u32) -> usize
    ensures { result ≡ code_of (first_fit minus magnitude) }
{
    let width = first_fit(minus, magnitude as u64);
    code_of(width) as usize
}

// The first width that fits digits, at most nine; the value is needed neither for two digits nor for four without a 0 in front.
pub fn fit(s: &[u8], minus: bool) -> usize
    requires { (length s.now ≤ 9) × (run digit s.now ≡ length s.now) }
    ensures { result ≡ code_of (first_fit minus (value_of 10 s.now)) }
{
    if s.len() < 3 {
        return fit_code(minus, 0);
    }
    if s.len() == 4 {
        if s[0] != b'0' {
            return fit_code(minus, 1000);
        }
    }
    fit_code(minus, value(s))
}
