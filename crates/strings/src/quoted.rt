// Quoted strings and byte strings.
ghost use Rattle.std.specs.Prelude.{◌≡◌, false, ◌≤◌, length, drop};
ghost use Rattle.strings.specs.Pieces.{body_of};
ghost use Rattle.strings.specs.Quoted.{measured, quoted_of};

use crate::Literal;
use crate::literal::unclosed;
use crate::pieces::{Piece, decoded_len, next_piece, simple_escape};
use crate::runs::{find_end, find_quote};
use escapes::Mode;
use text::Refusal;
use text::refusal::placed_behind;

// The body from `start` on, piece by piece; a later search for the end begins at `from`.
fn body(m: Mode, s: &[u8], start: usize) -> Result<Literal, Refusal>
    requires { start ≤ length s.now }
    ensures { result ≡ measured (body_of m (drop start s.now)) start start start 0 false }
{
    let mut from = start;
    let mut at = start;
    let mut decoded: usize = 0;
    let mut escaped = false;
    while at < s.len() {
        if simple_escape(s, at) {
            at += 2;
            from = at;
            decoded += 1;
            escaped = true;
            continue;
        }
        let p = next_piece(m, &s[at..]);
        match p {
            Piece::Quote => {
                return Ok(Literal {
                    len: at + 1,
                    start,
                    end: at,
                    decoded,
                    escaped,
                });
            }
            Piece::Plain(n) => {
                at += n;
                decoded += n;
            }
            Piece::Backslash(n, d) => {
                at += n;
                from = at;
                decoded += decoded_len(d);
                escaped = true;
            }
            Piece::Refused(r) => {
                return Err(placed_behind(r, at));
            }
        }
    }
    unclosed(from)
}

// The string whose contents begin at `start`. Most hold no backslash; else a closing quote is searched for before any escape is judged.
pub fn quoted(m: Mode, s: &[u8], start: usize) -> Result<Literal, Refusal>
    requires { start ≤ length s.now }
    ensures { result ≡ quoted_of m start s.now }
{
    let t = &s[start..];
    let n = find_end(t);
    let end = start + n;
    if s.len() <= end {
        return unclosed(start);
    }
    if s[end] == b'"' {
        return Ok(Literal {
            len: end + 1,
            start,
            end,
            decoded: n,
            escaped: false,
        });
    }
    if find_quote(t) < t.len() {
        return body(m, s, start);
    }
    unclosed(start)
}
