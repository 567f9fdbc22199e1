// The answer of a skip.
ghost use Rattle.std.specs.Prelude.{◌≡◌};
ghost use Rattle.lines.specs.Out.{put};
ghost use Rattle.show.specs.Answers.{answer_text};
ghost use Rattle.show.specs.Skips.{length_text, cursor_text, moved_text};

use cursor::ParserCursor;
use lines::out;
use text::Refusal;

// The whitespace's length, or `mark` for a line that is not closed.
fn length(o: &mut [u8], at: usize, n: usize) -> usize
    ensures { (o.new, result) ≡ put (o.old, at) (length_text n) }
{
    if n == ParserCursor::WS_CURSOR_UNCLOSED_LINE {
        return out::bytes(o, at, b" mark");
    }
    out::word(o, at, n as u64)
}

fn cursor(o: &mut [u8], at: usize, c: ParserCursor) -> usize
    ensures { (o.new, result) ≡ put (o.old, at) (cursor_text c) }
{
    let a = out::word(o, at, c.cursor as u64);
    let b = out::word(o, a, c.pre_ws_cursor as u64);
    length(o, b, c.last_ws_len)
}

// The three numbers of the cursor, or the refusal.
pub fn skipped(o: &mut [u8], at: usize, s: Result<ParserCursor, Refusal>) -> usize
    ensures { (o.new, result) ≡ put (o.old, at) (answer_text moved_text s) }
{
    match s {
        Ok(c) => {
            let a = out::bytes(o, at, b"ok");
            cursor(o, a, c)
        }
        Err(r) => crate::refused(o, at, r),
    }
}
