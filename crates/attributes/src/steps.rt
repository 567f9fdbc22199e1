// Steps through an attribute: whitespace, and signs with whitespace behind them. A step at or behind the end of the part finds nothing there.
ghost use Rattle.std.specs.Prelude.{◌≡◌, ◌<◌, true};
ghost use Rattle.attributes.specs.Steps.{skip_from, all_at, consume_from, consume_of, sign_at, sign_from};

use comments::{Gap, skip_gap};
use text::Refusal;
use text::bytes::peek;
use text::refusal::placed_behind;

// Behind whitespace and comments: the place where the next thing begins, or a refusal.
pub fn skip_ws(s: &[u8], at: usize) -> Result<usize, Refusal>
    ensures { result ≡ skip_from s.now at }
{
    if s.len() <= at {
        return Ok(at);
    }
    let gap = skip_gap(&s[at..]);
    match gap {
        Gap::Clear(n) => {
            let next = at + n;
            Ok(next)
        }
        Gap::InLine(n) => {
            let end = at + n;
            Ok(end)
        }
        Gap::Refused(r) => Err(placed_behind(r, at)),
    }
}

// The start of `consume_all` behind a step: whether it has found all so far, as it goes on where a sign is missing, and how far it has come.
pub fn all_at(step: Result<usize, Refusal>) -> Result<(bool, usize), Refusal>
    ensures { result ≡ all_at true step }
{
    let place = step?;
    Ok((true, place))
}

// One sign of `consume_all` at a place, and the whitespace behind it.
fn consume_at(s: &[u8], b: u8, all: bool, at: usize) -> Result<(bool, usize), Refusal>
    requires { 0 < b }
    ensures { result ≡ consume_from b s.now all at }
{
    if peek(s, at) != b {
        return Ok((false, at));
    }
    let next = at + 1;
    let place = skip_ws(s, next)?;
    Ok((all, place))
}

// One sign more of `consume_all`.
pub fn consume(
    s: &[u8],
    b: u8,
    done: Result<(bool, usize), Refusal>,
) -> Result<(bool, usize), Refusal>
    requires { 0 < b }
    ensures { result ≡ consume_of b s.now done }
{
    let (all, at) = done?;
    consume_at(s, b, all, at)
}

// A sign that has to stand at a place, and the whitespace behind it.
fn sign_at(s: &[u8], b: u8, at: usize) -> Result<usize, Refusal>
    requires { 0 < b }
    ensures { result ≡ sign_at b s.now at }
{
    if peek(s, at) != b {
        return Err(Refusal::expected_attribute(0));
    }
    let next = at + 1;
    skip_ws(s, next)
}

// A sign that has to stand there, between whitespace.
pub fn sign(s: &[u8], b: u8, at: usize) -> Result<usize, Refusal>
    requires { 0 < b }
    ensures { result ≡ sign_from b s.now at }
{
    let place = skip_ws(s, at)?;
    sign_at(s, b, place)
}
