// Decoding a string that was read: exactly the decoded bytes are written, at the front of `out`.
ghost use Rattle.std.specs.Prelude.{◌≡◌, true, ◌++◌, ◌≤◌, length, drop, Ok};
ghost use Rattle.strings.specs.Pieces.{writable, bytes_of, body_of, decoded_of};
ghost use Rattle.strings.specs.Strings.{string_of, byte_string_of, string_decoded, byte_string_decoded, part_decoded, into_out};

use crate::Literal;
use crate::pieces::{Decoded, Piece, decoded_len, next_piece};
use escapes::Mode;
use text::utf8;

// The bytes of t, at the front of out.
fn copy(t: &[u8], out: &mut [u8])
    requires { length t.now ≤ length out.old }
    ensures { out.new ≡ into_out t.now out.old }
{
    // A loop by hand: `copy_from_slice` would have the archive ask its host for memmove, and it asks for memset alone (bindings/symbols).
    let mut i = 0;
    while i < t.len() {
        out[i] = t[i];
        i += 1;
    }
}

// What a piece decodes to, at the front of out.
fn put(d: Decoded, out: &mut [u8])
    requires { (writable d ≡ true) × (length (bytes_of d) ≤ length out.old) }
    ensures { out.new ≡ into_out (bytes_of d) out.old }
{
    match d {
        Decoded::Nothing => {}
        Decoded::Ascii(b) => {
            out[0] = b;
        }
        Decoded::Utf8(c) => {
            let _ = utf8::encode(c, out);
        }
    }
}

// The body at the front of s, piece by piece.
fn decode_body(m: Mode, s: &[u8], out: &mut [u8])
    requires { length (decoded_of (body_of m s.now)) ≤ length out.old }
    ensures { out.new ≡ into_out (decoded_of (body_of m s.now)) out.old }
{
    let mut at = 0;
    let mut n = 0;
    while at < s.len() {
        let p = next_piece(m, &s[at..]);
        match p {
            Piece::Quote => {
                return;
            }
            Piece::Plain(k) => {
                let next = at + k;
                copy(&s[at..next], &mut out[n..]);
                at = next;
                n += k;
            }
            Piece::Backslash(k, d) => {
                put(d, &mut out[n..]);
                at += k;
                n += decoded_len(d);
            }
            Piece::Refused(_) => {
                return;
            }
        }
    }
}

// Contents of n bytes at the front of t; they stand as they are where nothing is escaped.
fn decode_part(m: Mode, t: &[u8], n: usize, escaped: bool, out: &mut [u8])
    requires { (n ≤ length t.now) × (length (part_decoded m t.now n escaped) ≤ length out.old) }
    ensures { out.new ≡ into_out (part_decoded m t.now n escaped) out.old }
{
    if escaped {
        decode_body(m, t, out);
        return;
    }
    copy(&t[0..n], out);
}

// The string at the front of s, which was found to be l.
pub fn decode_string(s: &[u8], l: Literal, out: &mut [u8])
    requires { (string_of s.now ≡ Ok l) × (l.decoded ≤ length out.old) }
    ensures { out.new ≡ string_decoded s.now ++ drop l.decoded out.old }
{
    let start = l.start;
    decode_part(Mode::Str, &s[start..], l.end - start, l.escaped, out);
}

// The byte string at the front of s, which was found to be l.
pub fn decode_byte_string(s: &[u8], l: Literal, out: &mut [u8])
    requires { (byte_string_of s.now ≡ Ok l) × (l.decoded ≤ length out.old) }
    ensures { out.new ≡ byte_string_decoded s.now ++ drop l.decoded out.old }
{
    let start = l.start;
    decode_part(Mode::Bytes, &s[start..], l.end - start, l.escaped, out);
}
