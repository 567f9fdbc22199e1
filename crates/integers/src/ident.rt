// Words at the front of a part, after the crate's `check_str` and `check_ident`.
ghost use Rattle.std.specs.Prelude.{◌≡◌};
ghost use Rattle.integers.specs.Words.{ident_at};
ghost use Rattle.text.specs.Words.{starts_with};

use text::ahead::is_next_ahead;

// The number that a word stands for, and the place behind it. Without a word both are 0: no bytes are passed, which callers add as they add a word's, and the
// number is a suffix's own 0 for none.
#[derive(Clone, Copy)]
pub struct Found {
    pub code: u8,
    pub end: usize,
}

// No word.
pub fn nothing() -> Found
    ensures { result ≡ Rattle.integers.specs.Words.nothing_found }
{
    Found { code: 0, end: 0 }
}

// The part begins with the word.
pub fn check_str(t: &[u8], word: &[u8]) -> bool
    ensures { result ≡ starts_with word.now t.now }
{
    t.starts_with(word)
}

// The word stands at the front and no name goes on behind it.
pub fn check_ident(t: &[u8], word: &[u8]) -> bool
    ensures { result ≡ ident_at word.now t.now }
{
    if check_str(t, word) {
        let n = word.len();
        if is_next_ahead(&t[n..]) {
            return false;
        }
        return true;
    }
    false
}
