// The answers of contents and decoded.
ghost use Rattle.std.specs.Prelude.{◌≡◌};
ghost use Rattle.lines.specs.Out.{put};
ghost use Rattle.show.specs.Answers.{answer_text};
ghost use Rattle.show.specs.Contents.{span_text, bytes_text, wrote_text};

use lines::out;
use sarridok::Span;
use text::Refusal;

// Where the part stands, or the refusal.
pub fn view(o: &mut [u8], at: usize, r: Result<Span, Refusal>) -> usize
    ensures { (o.new, result) ≡ put (o.old, at) (answer_text span_text r) }
{
    match r {
        Ok(s) => {
            let a = out::bytes(o, at, b"ok part");
            let b = out::word(o, a, s.start as u64);
            out::word(o, b, s.end as u64)
        }
        Err(f) => crate::refused(o, at, f),
    }
}

// How many bytes, and these; nothing stands behind a length of 0.
fn wrote(o: &mut [u8], at: usize, s: &[u8]) -> usize
    ensures { (o.new, result) ≡ put (o.old, at) (bytes_text s.now) }
{
    let a = out::bytes(o, at, b"ok");
    let b = out::word(o, a, s.len() as u64);
    if s.len() == 0 {
        return b;
    }
    let c = out::byte(o, b, b' ');
    crate::hex::bytes(o, c, s)
}

// The buffer is the one that was lent.
pub fn decoded(o: &mut [u8], at: usize, r: Result<usize, Refusal>, buffer: &[u8]) -> usize
    ensures { (o.new, result) ≡ put (o.old, at) (answer_text (wrote_text buffer.now) r) }
{
    match r {
        Ok(n) => wrote(o, at, lines::part(buffer, 0, n)),
        Err(f) => crate::refused(o, at, f),
    }
}
