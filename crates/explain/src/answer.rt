// What is said of a text.
ghost use Rattle.std.specs.Prelude.{◌≡◌, min, length};
ghost use Rattle.lines.specs.Out.{put};
ghost use Rattle.explain.specs.Explained.{accepted_text, position_text, also_text, reason_text, refused_text};
ghost use Rattle.explain.specs.Explained.{began_text, named_text, begun_text, refusal_text};

use crate::excerpt::{characters, excerpt};
use crate::sentence;
use lines::{out, part};
use opened::Begun;
use places::column::column_of;
use places::line::line_of;
use text::Refusal;

// What is said of a text that reads and walks.
pub fn accepted(o: &mut [u8], count: usize, depth: usize) -> usize
    ensures { (o.new, result) ≡ put (o.old, 0) (accepted_text count depth) }
{
    let a = out::bytes(o, 0, b"ok");
    let b = out::word(o, a, count as u64);
    let c = out::bytes(o, b, b" entries, depth");
    let d = out::word(o, c, depth as u64);
    out::byte(o, d, b'\n')
}

// A place behind the end, which no refusal has, would be shown at the end.
fn within(place: usize, s: &[u8]) -> usize
    ensures { result ≡ min place (length s.now) }
{
    if place < s.len() { place } else { s.len() }
}

// Line and column are counted from 1.
fn position(o: &mut [u8], at: usize, s: &[u8], place: usize) -> usize
    ensures { (o.new, result) ≡ put (o.old, at) (position_text s.now place) }
{
    let a = out::bytes(o, at, b"line");
    let b = out::word(o, a, line_of(s, place) as u64);
    let c = out::bytes(o, b, b", column");
    let d = out::word(o, c, column_of(s, place) as u64);
    out::bytes(o, d, b": ")
}

// A reason's number behind a comma; nothing for 0.
fn also(o: &mut [u8], at: usize, reason: u8) -> usize
    ensures { (o.new, result) ≡ put (o.old, at) (also_text reason) }
{
    if reason == 0 {
        return at;
    }
    let a = out::bytes(o, at, b",");
    out::word(o, a, reason as u64)
}

// The sentence of a refusal with its reason in words, and their numbers.
fn reason(o: &mut [u8], at: usize, f: Refusal) -> usize
    ensures { (o.new, result) ≡ put (o.old, at) (reason_text f) }
{
    let a = sentence::say(o, at, f.number);
    let b = sentence::why(o, a, f.reason);
    let c = out::bytes(o, b, b" [");
    let d = out::number(o, c, f.number as u64);
    let e = also(o, d, f.reason);
    out::bytes(o, e, b"]\n")
}

// The refusal at a byte of the text.
fn refusal(o: &mut [u8], s: &[u8], f: Refusal, at: usize) -> usize
    ensures { (o.new, result) ≡ put (o.old, 0) (refused_text s.now f at) }
{
    let place = within(at, s);
    let a = position(o, 0, s, place);
    let b = reason(o, a, f);
    excerpt(o, b, s, place)
}

// The line and column of the place where something began, what it is, and the line.
fn began_at(o: &mut [u8], at: usize, s: &[u8], byte: usize, said: &[u8]) -> usize
    ensures { (o.new, result) ≡ put (o.old, at) (began_text s.now said.now byte) }
{
    let place = within(byte, s);
    let a = position(o, at, s, place);
    let b = out::bytes(o, a, said);
    excerpt(o, b, s, place)
}

// That a field of this name is the first.
fn named(o: &mut [u8], at: usize, name: &[u8]) -> usize
    ensures { (o.new, result) ≡ put (o.old, at) (named_text name.now) }
{
    let a = out::bytes(o, at, b"the field ");
    let b = characters(o, a, name);
    out::bytes(o, b, b" is named here first\n")
}

// The line and column of the first field of a name, the name, and the line.
fn named_at(o: &mut [u8], at: usize, s: &[u8], byte: usize, name: &[u8]) -> usize
    ensures { (o.new, result) ≡ put (o.old, at) (began_text s.now (named_text name.now) byte) }
{
    let place = within(byte, s);
    let a = position(o, at, s, place);
    let b = named(o, a, name);
    excerpt(o, b, s, place)
}

// Where what is not closed began, or where a field of the same name stands.
fn began(o: &mut [u8], at: usize, s: &[u8], b: Begun) -> usize
    ensures { (o.new, result) ≡ put (o.old, at) (begun_text s.now b) }
{
    match b {
        Begun::Nothing => at,
        Begun::Comment(p) => began_at(o, at, s, p, b"the comment begins here\n"),
        Begun::Quote(p) => began_at(o, at, s, p, b"the string begins here\n"),
        Begun::Bracket(p) => began_at(o, at, s, p, b"this bracket is open\n"),
        Begun::Field(p, from, end) => named_at(o, at, s, p, part(s, from, end)),
    }
}

// The refusal, and below it the other place, if there is one.
pub fn refused(o: &mut [u8], s: &[u8], f: Refusal, at: usize, b: Begun) -> usize
    ensures { (o.new, result) ≡ put (o.old, 0) (refusal_text s.now f at b) }
{
    let end = refusal(o, s, f, at);
    began(o, end, s, b)
}
