// Attributes (document 01, module 7), after the crate's `attribute` and `extension_list`, over the part of the text that begins with the `#`: `enable`
// with its list, `type` and `schema`; 19, 20 and 21 stand at the `#`.
#![tactic(auto)]

pub mod close;
pub mod extensions;
pub mod list;
pub mod steps;
pub mod words;

ghost use Rattle.std.specs.Prelude.{◌≡◌};
ghost use Rattle.attributes.specs.Attributes.{enable_from, string_value_from, keyword_from, attribute_of};

use text::Refusal;
use words::Keyword;

// Behind `enable`: the list in its brackets.
#[tactic(auto, unfolding(crate::specs::Attributes::enable_from))]
fn enable(s: &[u8], at: usize) -> Result<(usize, u32), Refusal>
    ensures { result ≡ enable_from s.now at }
{
    let start = steps::sign(s, b'(', at)?;
    let (end, extensions) = list::extension_list(s, start)?;
    close::close_list(s, end, extensions)
}

// Behind `type` or `schema`: a string.
#[tactic(auto, unfolding(crate::specs::Attributes::string_value_from))]
fn value(s: &[u8], at: usize) -> Result<(usize, u32), Refusal>
    ensures { result ≡ string_value_from s.now at }
{
    let start = steps::sign(s, b'=', at)?;
    close::string_value(s, start)
}

// Behind `#`, `!` and `[`.
fn keyword(s: &[u8], at: usize) -> Result<(usize, u32), Refusal>
    ensures { result ≡ keyword_from s.now at }
{
    let found = words::keyword_at(s, at);
    match found {
        Keyword::Enable(behind) => enable(s, behind),
        Keyword::Text(behind) => value(s, behind),
        Keyword::NoKeyword => Err(Refusal::expected_attribute(0)),
    }
}

// The attribute that s begins with: its length, its `]` included, and the sum of its extensions; or a refusal, of which 19, 20 and 21 stand at the `#`.
#[tactic(auto, unfolding(crate::specs::Attributes::attribute_of, crate::specs::Attributes::opened_of))]
pub fn attribute(s: &[u8]) -> Result<(usize, u32), Refusal>
    ensures { result ≡ attribute_of s.now }
{
    let hash = steps::consume(s, b'#', Ok((true, 0)));
    let bang = steps::consume(s, b'!', hash);
    let (all, at) = steps::consume(s, b'[', bang)?;
    if all {
        return keyword(s, at);
    }
    Err(Refusal::expected_attribute(0))
}
