// Runs in strings: up to a quote or a backslash, of hashes, of continuation whitespace.
ghost use Rattle.std.specs.Prelude.{◌≡◌};
ghost use Rattle.text.specs.Runs.{run};
ghost use Rattle.text.specs.Classes.{continuation_blank};
ghost use Rattle.strings.specs.Pieces.{plain, unquoted};
ghost use Rattle.strings.specs.Raw.{hash};

use text::classes::is_string_continuation_whitespace;

// How many bytes stand before the first quote.
pub fn find_quote(s: &[u8]) -> usize
    ensures { result ≡ run unquoted s.now }
{
    search::find(s, 0, b'"')
}

// How many bytes stand before the first quote or backslash.
pub fn find_end(s: &[u8]) -> usize
    ensures { result ≡ run plain s.now }
{
    search::find_either(s, 0, b'"', b'\\')
}

// How many hashes stand at the front.
pub fn count_hashes(s: &[u8]) -> usize
    ensures { result ≡ run hash s.now }
{
    s.iter().position(|&b| b != b'#').unwrap_or(s.len())
}

// How many bytes of continuation whitespace stand at the front.
pub fn count_blanks(s: &[u8]) -> usize
    ensures { result ≡ run continuation_blank s.now }
{
    s.iter()
        .position(|&b| !is_string_continuation_whitespace(b))
        .unwrap_or(s.len())
}
