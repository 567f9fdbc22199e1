// The words of a line of the case format: the parts between single spaces; hex, decimal numbers and lists of them.
#![tactic(auto)]

pub mod hex;
pub mod list;
pub mod number;
pub mod small;

ghost use Rattle.std.specs.Prelude.{◌≡◌};
ghost use Rattle.words.specs.Dash.{is_dash};
ghost use Rattle.words.specs.Split.{first_word, behind_word};

// The first word: it ends at a space, or with the last byte.
pub fn word(s: &[u8]) -> &[u8]
    ensures { result.now ≡ first_word s.now }
{
    lines::until(s, b' ')
}

// The words behind the first, without the space between.
pub fn behind(s: &[u8]) -> &[u8]
    ensures { result.now ≡ behind_word s.now }
{
    lines::past(s, b' ')
}

// Whether a word is `-`, which stands for nothing.
pub fn is_dash(s: &[u8]) -> bool
    ensures { result ≡ is_dash s.now }
{
    s == b"-".as_slice()
}
