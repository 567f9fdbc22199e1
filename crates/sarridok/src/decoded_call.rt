// A string entry decoded into a lent buffer.
ghost use Rattle.std.specs.Prelude.{◌≡◌, length};
ghost use Rattle.sarridok.specs.Contents.{decoded_answer, decoded_out};

use entries::decoding::decoded_at;
use entries::named::find_named;
use text::Refusal;
use text::judge::judge;

// What the string decodes to, at the front of `out`: how many bytes were written; refused, it writes nothing.
pub fn decoded(
    text: &[u8],
    tape: &[u32],
    count: usize,
    entry: usize,
    out: &mut [u8],
) -> Result<usize, Refusal>
    ensures result_value { result ≡ decoded_answer text.now tape.now count entry (length out.old) }
    ensures out_after { out.new ≡ decoded_out text.now tape.now count entry out.old }
{
    judge(text)?;
    let (bytes, place) = find_named(text, tape, count, entry)?;
    decoded_at(text, bytes, place, out)
}
