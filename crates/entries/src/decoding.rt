// The contents of a string decoded into a lent buffer: measured first, so that a refusal writes nothing.
ghost use Rattle.std.specs.Prelude.{◌≡◌, ◌++◌, ◌≤◌, length, drop, Ok};
ghost use Rattle.entries.specs.Named.{literal_of, literal_decoded};
ghost use Rattle.entries.specs.Contents.{decoded_in, written_by};

use crate::named::read_named;
use strings::Literal;
use strings::decode::{decode_byte_string, decode_string};
use text::Refusal;
use text::refusal::placed_behind;

// The string or byte string at the front of s, which was found to be l.
fn decode(bytes: bool, s: &[u8], l: Literal, out: &mut [u8])
    requires { (literal_of bytes s.now ≡ Ok l) × (l.decoded ≤ length out.old) }
    ensures { out.new ≡ literal_decoded bytes s.now ++ drop l.decoded out.old }
{
    if bytes {
        decode_byte_string(s, l, out);
        return;
    }
    decode_string(s, l, out);
}

// The string at a place: how many bytes were written, or the refusal.
pub fn decoded_at(text: &[u8], bytes: bool, place: usize, out: &mut [u8]) -> Result<usize, Refusal>
    requires { place ≤ length text.now }
    ensures result_value { result ≡ decoded_in place (length out.old) (literal_of bytes (drop place text.now)) }
    ensures out_after { out.new ≡ written_by result (literal_decoded bytes (drop place text.now)) out.old }
{
    let s = &text[place..];
    let read = read_named(bytes, s);
    match read {
        Ok(l) => {
            if out.len() < l.decoded {
                return Err(Refusal::no_room());
            }
            decode(bytes, s, l, out);
            Ok(l.decoded)
        }
        Err(r) => Err(placed_behind(r, place)),
    }
}
