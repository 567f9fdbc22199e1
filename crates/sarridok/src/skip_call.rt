// Behind the whitespace and comments at a cursor.
ghost use Rattle.std.specs.Prelude.{◌≡◌};
ghost use Rattle.sarridok.specs.Skip.{skip_of};

use cursor::ParserCursor;
use text::Refusal;
use text::judge::judge;

// The cursor there; 28 for a cursor that is unfit for the text.
pub fn skip(text: &[u8], c: ParserCursor) -> Result<ParserCursor, Refusal>
    ensures { result ≡ skip_of text.now c }
{
    judge(text)?;
    if !c.fits(text) {
        return Err(Refusal::unfit());
    }
    c.skip_ws(text)
}
