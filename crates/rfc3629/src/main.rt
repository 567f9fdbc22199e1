// RFC 3629's own examples (sections 7 and 10), each decoded to code points and encoded again; a bad sequence is told with its place.
#![tactic(auto)]

use lines::out;
use lines::out::STDOUT_FILENO;
use text::utf8;

// A code point as the document writes it.
fn point(o: &mut [u8], at: usize, c: u32) -> usize {
    let mut digits = [0u8; 16];
    let k = io::hex(c as u64, 4, &mut digits);
    let a = out::bytes(o, at, b" U+");
    out::bytes(o, a, &digits[..k])
}

// The character at the front of s, if there is one; a `!` behind it would say that its code point encodes to other bytes.
fn character(s: &[u8], o: &mut [u8], at: usize) -> usize {
    let len = utf8::char_len(s);
    if len == 0 {
        return at;
    }
    let c = utf8::code_point(s);
    let a = point(o, at, c);
    let mut bytes = [0u8; 4];
    let n = utf8::encode(c, &mut bytes).unwrap_or(0);
    if check::same(lines::part(&bytes, 0, n), lines::part(s, 0, len)) {
        return a;
    }
    out::byte(o, a, b'!')
}

fn characters(s: &[u8], o: &mut [u8], at: usize) -> usize {
    let mut a = at;
    for i in 0..s.len() {
        a = character(&s[i..], o, a);
    }
    a
}

fn verdict(judged: Option<usize>, o: &mut [u8], at: usize) -> usize {
    match judged {
        None => out::bytes(o, at, b"good"),
        Some(p) => {
            let a = out::bytes(o, at, b"bad at");
            out::word(o, a, p as u64)
        }
    }
}

// A line for each example.
fn example(s: &[u8], o: &mut [u8], at: usize) -> usize {
    let a = verdict(utf8::first_bad(s), o, at);
    let b = characters(s, o, a);
    out::byte(o, b, b'\n')
}

fn main() {
    let mut o = [0u8; 1024];
    let a = example(b"\x41\xE2\x89\xA2\xCE\x91\x2E", &mut o, 0);
    let a = example(b"\xED\x95\x9C\xEA\xB5\xAD\xEC\x96\xB4", &mut o, a);
    let a = example(b"\xE6\x97\xA5\xE6\x9C\xAC\xE8\xAA\x9E", &mut o, a);
    let a = example(b"\xEF\xBB\xBF\xF0\xA3\x8E\xB4", &mut o, a);
    let a = example(b"\xC0\x80", &mut o, a);
    let a = example(b"\x2F\xC0\xAE\x2E\x2F", &mut o, a);
    let a = example(b"\xED\xA1\x8C\xED\xBE\xB4", &mut o, a);
    io::write_all(STDOUT_FILENO, lines::part(&o, 0, a));
}
