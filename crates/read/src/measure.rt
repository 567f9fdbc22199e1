// The first pass: nothing is written.
ghost use Rattle.std.specs.Prelude.{◌≡◌, ◌≤◌, length};
ghost use Rattle.reading.specs.Readings.{read_from, counted};
ghost use Rattle.tokens.specs.Ron.{ron_token};
ghost use Rattle.read.specs.inner.Pass.{scanned_from, told_by};

use crate::pass::pass;
use crate::scanned::Scanned;
use text::Refusal;

// What a text holds; there are no more entries than bytes.
pub fn scan(text: &[u8]) -> Scanned
    requires { length text.now ≤ 65536 }
    ensures { result ≡ scanned_from 0 (read_from ron_token text.now 0) }
{
    let mut none = [0u32; 1];
    let all = text.len() + 1;
    pass(text, 0, &mut none, all, false)
}

// How many entries, or the refusal.
fn answer(s: Scanned) -> Result<usize, Refusal>
    ensures { result ≡ told_by s.ending s.count }
{
    s.ending?;
    Ok(s.count)
}

// How many entries a text has, or its refusal.
pub fn measure(text: &[u8]) -> Result<usize, Refusal>
    requires { length text.now ≤ 65536 }
    ensures { result ≡ counted 0 (read_from ron_token text.now 0) }
{
    answer(scan(text))
}
