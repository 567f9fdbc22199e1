// What a step of the scan passes over, one after the other: the place that was reached, or the refusal on the way, which stays.
ghost use Rattle.std.specs.Prelude.{◌≡◌, length};
ghost use Rattle.structs.specs.Passes.{Fits, FitsLiteral, behind_literal, past_gap, past_char, past_string, past_byte_string};

use comments::{Gap, skip_gap};
use strings::Literal;
use strings::chars::char_literal;
use text::Refusal;
use text::refusal::placed_behind;

// Whitespace and comments.
pub fn skip_ws(s: &[u8], from: Result<usize, Refusal>) -> Result<usize, Refusal>
    requires { Fits (length s.now) from }
    ensures { result ≡ past_gap s.now from }
{
    let at = from?;
    let gap = skip_gap(&s[at..]);
    match gap {
        Gap::Clear(n) => Ok(at + n),
        Gap::InLine(n) => Ok(at + n),
        Gap::Refused(refusal) => Err(placed_behind(refusal, at)),
    }
}

// A char that fails is none.
pub fn skip_char(s: &[u8], from: Result<usize, Refusal>) -> Result<usize, Refusal>
    requires { Fits (length s.now) from }
    ensures { result ≡ past_char s.now from }
{
    let at = from?;
    let read = char_literal(&s[at..]);
    match read {
        Ok((len, _)) => Ok(at + len),
        Err(_) => Ok(at),
    }
}

// Only the refusal with this number says that no string begins here: a malformed one ends the scan, which so stays linear.
fn behind_literal(read: Result<Literal, Refusal>, none: u8, at: usize) -> Result<usize, Refusal>
    requires { FitsLiteral at read }
    ensures { result ≡ behind_literal none at read }
{
    match read {
        Ok(literal) => Ok(at + literal.len),
        Err(refusal) => {
            if refusal.number == none {
                return Ok(at);
            }
            Err(placed_behind(refusal, at))
        }
    }
}

// A string, raw or not.
pub fn skip_string(s: &[u8], from: Result<usize, Refusal>) -> Result<usize, Refusal>
    requires { Fits (length s.now) from }
    ensures { result ≡ past_string s.now from }
{
    let at = from?;
    behind_literal(strings::string(&s[at..]), Refusal::EXPECTED_STRING, at)
}

// A byte string, raw or not.
pub fn skip_byte_string(s: &[u8], from: Result<usize, Refusal>) -> Result<usize, Refusal>
    requires { Fits (length s.now) from }
    ensures { result ≡ past_byte_string s.now from }
{
    let at = from?;
    behind_literal(
        strings::byte_string_no_base64(&s[at..]),
        Refusal::EXPECTED_BYTE_STRING,
        at,
    )
}
