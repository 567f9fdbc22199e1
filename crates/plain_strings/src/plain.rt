// Plain strings at the front of a part.
ghost use Rattle.std.specs.Prelude.{◌≡◌, ◌<◌, length};
ghost use Rattle.plain_strings.specs.inner.PlainStrings.{plain_string};

use strings::runs::find_end;

// The length of the plain string at the front with its quotes, 0 where there is none.
pub fn plain_string(s: &[u8]) -> usize
    requires { 0 < length s.now }
    ensures { result ≡ plain_string s.now }
{
    if s[0] != b'"' {
        return 0;
    }
    let end = 1 + find_end(&s[1..]);
    if s.len() <= end {
        return 0;
    }
    if s[end] != b'"' {
        return 0;
    }
    end + 1
}
