// The scan over a value, to see if another follows it.
ghost use Rattle.std.specs.Prelude.{◌≡◌, ◌≤◌, length};
ghost use Rattle.structs.specs.Scan.{after_comma, scan_of};

use crate::kinds::{StructType, placed};
use crate::passes::skip_ws;
use crate::steps::{Step, next_step};
use text::Refusal;
use text::bytes::peek;
use text::refusal::placed_behind;

// What stands behind the first comma decides: a one-element tuple could be a newtype.
pub fn behind_comma(s: &[u8]) -> Result<StructType, Refusal>
    ensures { result ≡ after_comma s.now }
{
    let i = skip_ws(s, Ok(0))?;
    if peek(s, i) == b')' {
        return Ok(StructType::NewtypeTuple);
    }
    Ok(StructType::NonNewtypeTuple)
}

// From a place inside one bracket, to the comma or closing bracket that decides.
pub fn scan_value(s: &[u8], at: usize) -> Result<StructType, Refusal>
    requires { at ≤ length s.now }
    ensures { result ≡ scan_of s.now at }
{
    let mut braces: usize = 1;
    let mut i = at;
    let found = loop {
        let step = next_step(&s[i..]);
        match step {
            Step::Opening(n) => {
                braces += 1;
                i += n;
            }
            Step::Closing(n) => {
                braces -= 1;
                i += n;
                if braces == 0 {
                    break Ok(StructType::NewtypeTuple);
                }
            }
            Step::Comma(n) => {
                i += n;
                if braces == 1 {
                    break placed(behind_comma(&s[i..]), i);
                }
            }
            Step::Plain(n) => {
                i += n;
            }
            Step::Refused(refusal) => {
                break Err(placed_behind(refusal, i));
            }
        }
    };
    found
}
