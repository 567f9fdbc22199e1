// What every call asks of its text and places first.
ghost use Rattle.std.specs.Prelude.{◌≡◌};
ghost use Rattle.text.specs.Judged.{judged_of, place_fits};

use crate::bytes::peek;
use crate::classes::is_within;
use crate::refusal::Refusal;
use crate::utf8;

// 1 for a text over 65,536 bytes, 2 for one that is not UTF-8.
pub fn judge(text: &[u8]) -> Result<(), Refusal>
    ensures { result ≡ judged_of text.now }
{
    if 65536 < text.len() {
        return Err(Refusal::too_long());
    }
    let utf8 = utf8::first_bad(text);
    match utf8 {
        None => Ok(()),
        Some(p) => Err(Refusal::not_utf8(p)),
    }
}

// The place is neither past the end nor inside a character.
pub fn place_fits(text: &[u8], place: usize) -> bool
    ensures { result ≡ place_fits text.now place }
{
    if text.len() < place {
        return false;
    }
    !is_within(0x80, 0xBF, peek(text, place))
}
