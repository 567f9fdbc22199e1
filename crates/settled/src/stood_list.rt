// Where the list of extensions stands.
ghost use Rattle.std.specs.Prelude.{◌≡◌, drop};
ghost use Rattle.settled.specs.Stood.{named_stood, item_stood, by_stood_item, list_stood};

use crate::stood_steps::all_end;
use attributes::extensions::{Extension, from_ident};
use attributes::list::{Item, next_item};
use attributes::steps;
use names::Identifier;
use names::identifiers::identifier;

// Behind a name of n bytes, and behind its comma if it is an extension's.
fn named_stood(t: &[u8], n: usize, named: Option<Extension>) -> usize
    ensures { result ≡ named_stood t.now n named }
{
    match named {
        Some(_) => {
            let gap = steps::skip_ws(t, n);
            let so_far = steps::all_at(gap);
            let comma = steps::consume(t, b',', so_far);
            all_end(comma)
        }
        None => n,
    }
}

// In the item that the part begins with.
fn item_stood(t: &[u8]) -> usize
    ensures { result ≡ item_stood t.now }
{
    let name = identifier(t);
    match name {
        Identifier::Missing => 0,
        Identifier::Name(n) => named_stood(t, n, from_ident(t, n)),
        Identifier::RawName(n) => {
            let letters = n - 2;
            named_stood(t, n, from_ident(&t[2..], letters))
        }
    }
}

// The bytes of an item behind which the list goes on, 0 of any other.
fn goes_on(found: Item) -> usize
    ensures { result ≡ by_stood_item found (λ n. n) 0 }
{
    match found {
        Item::More(n, _) => n,
        Item::Last(_, _) => 0,
        Item::NoName => 0,
        Item::NoComma => 0,
        Item::Refused(_) => 0,
    }
}

// In the list that begins at a place.
pub fn list_stood(s: &[u8], start: usize) -> usize
    ensures { result ≡ list_stood (drop start s.now) 0 start }
{
    let mut at = start;
    while at < s.len() {
        let n = goes_on(next_item(&s[at..]));
        if n == 0 {
            let here = at + item_stood(&s[at..]);
            return here;
        }
        at += n;
    }
    at
}
