// The list of extensions between the brackets of `enable`.
ghost use Rattle.std.specs.Prelude.{◌≡◌, ◌≤◌, length};
ghost use Rattle.attributes.specs.List.{other_char, item_end, behind_name, by_extension_name, item_of, list_of};

use crate::extensions::Extension;
use crate::{extensions, steps};
use names::Identifier;
use names::identifiers::identifier;
use text::Refusal;
use text::ahead::is_next_ahead;
use text::refusal::placed_behind;

// Whether a name goes on at a place (the crate's `check_ident_other_char`).
#[derive(Clone, Copy)]
pub enum OtherChar {
    Goes,
    Ends,
}

// One extension with what stands behind it, and the bytes to where the next begins or the list ends.
#[derive(Clone, Copy)]
pub enum Item {
    More(usize, Extension),
    Last(usize, Extension),
    // No name, or no extension's: refusal 21.
    NoName,
    // Refusal 20.
    NoComma,
    Refused(Refusal),
}

// A name's character at a place of the part, where the crate begins the next extension.
fn check_other_char(t: &[u8], at: usize) -> OtherChar
    ensures { result ≡ other_char t.now at }
{
    if t.len() <= at {
        return OtherChar::Ends;
    }
    if is_next_ahead(&t[at..]) {
        return OtherChar::Goes;
    }
    OtherChar::Ends
}

// Behind an extension and the comma, if there is one.
fn item_end(t: &[u8], e: Extension, comma: bool, at: usize) -> Item
    ensures { result ≡ item_end t.now e comma at }
{
    let other = check_other_char(t, at);
    match other {
        OtherChar::Goes => {
            if comma {
                return Item::More(at, e);
            }
            Item::NoComma
        }
        OtherChar::Ends => Item::Last(at, e),
    }
}

// Behind the name of an extension, at n.
fn behind_name(t: &[u8], e: Extension, n: usize) -> Item
    ensures { result ≡ behind_name t.now e n }
{
    let gap = steps::skip_ws(t, n);
    let so_far = steps::all_at(gap);
    let comma = steps::consume(t, b',', so_far);
    match comma {
        Ok((found, at)) => item_end(t, e, found, at),
        Err(r) => Item::Refused(r),
    }
}

// A name of n bytes, which may be an extension's.
fn by_named(t: &[u8], n: usize, named: Option<Extension>) -> Item
    ensures { result ≡ by_extension_name t.now n named }
{
    match named {
        Some(e) => behind_name(t, e, n),
        None => Item::NoName,
    }
}

// The item that the part begins with.
pub fn next_item(t: &[u8]) -> Item
    ensures { result ≡ item_of t.now }
{
    let name = identifier(t);
    match name {
        Identifier::Missing => Item::NoName,
        Identifier::Name(n) => by_named(t, n, extensions::from_ident(t, n)),
        Identifier::RawName(n) => {
            let letters = n - 2;
            by_named(t, n, extensions::from_ident(&t[2..], letters))
        }
    }
}

// The list that begins at a place: the place behind it and the sum of its extensions, or a refusal.
pub fn extension_list(s: &[u8], start: usize) -> Result<(usize, u32), Refusal>
    ensures { result ≡ list_of s.now start }
{
    let mut at = start;
    let mut extensions: u32 = 0;
    while at < s.len() {
        let found = next_item(&s[at..]);
        match found {
            Item::More(n, e) => {
                extensions = extensions::add(e, extensions);
                at += n;
            }
            Item::Last(n, e) => {
                let end = at + n;
                return Ok((end, extensions::add(e, extensions)));
            }
            Item::NoName => {
                return Err(Refusal::no_such_extension(0));
            }
            Item::NoComma => {
                return Err(Refusal::expected_attribute_end(0));
            }
            Item::Refused(r) => {
                return Err(placed_behind(r, at));
            }
        }
    }
    Err(Refusal::eof(at))
}
