// What a string is found to be.
ghost use Rattle.std.specs.Prelude.{◌≡◌, Err};
ghost use Rattle.text.specs.Refusals.{expected_string_end};

use text::Refusal;

// The bytes of the whole token, its contents from `start` to `end`, how many bytes they decode to, and whether any was escaped or a line continued.
#[derive(Clone, Copy)]
pub struct Literal {
    pub len: usize,
    pub start: usize,
    pub end: usize,
    pub decoded: usize,
    pub escaped: bool,
}

// No closing quote.
pub fn unclosed(place: usize) -> Result<Literal, Refusal>
    ensures { result ≡ Err (expected_string_end place) }
{
    Err(Refusal::expected_string_end(place))
}
