// `k NEWTYPE TUPLE PLACE HEX`: a struct kind.
ghost use Rattle.std.specs.Prelude.{◌≡◌};
ghost use Rattle.lines.specs.Out.{put};
ghost use Rattle.cases.specs.Kinds.{modes_of, front_of, kind_line};

use sarridok::{NewtypeMode, TupleMode};
use words::{hex, number};

// What a line asks: the two modes and the place.
#[derive(Clone, Copy)]
struct Asked {
    newtype: NewtypeMode,
    tuple: TupleMode,
    place: usize,
}

// The modes that two numbers say, in the order of the crate's enums; none where there are no such modes.
#[tactic(auto, unfolding(crate::specs::Kinds::modes_of))]
fn modes_of(newtype: u64, tuple: u64, place: usize) -> Option<Asked>
    ensures { result ≡ modes_of newtype tuple place }
{
    if 1 < newtype {
        return None;
    }
    if 1 < tuple {
        return None;
    }
    if newtype == 0 {
        if tuple == 0 {
            return Some(Asked {
                newtype: NewtypeMode::NoParensMeanUnit,
                tuple: TupleMode::ImpreciseTupleOrNewtype,
                place,
            });
        }
        return Some(Asked {
            newtype: NewtypeMode::NoParensMeanUnit,
            tuple: TupleMode::DifferentiateNewtype,
            place,
        });
    }
    if tuple == 0 {
        return Some(Asked {
            newtype: NewtypeMode::InsideNewtype,
            tuple: TupleMode::ImpreciseTupleOrNewtype,
            place,
        });
    }
    Some(Asked {
        newtype: NewtypeMode::InsideNewtype,
        tuple: TupleMode::DifferentiateNewtype,
        place,
    })
}

// The modes and the place that the first three words say; none where the line is no case.
fn front(words: &[u8]) -> Option<Asked>
    ensures { result ≡ front_of words.now }
{
    let newtype = number::decimal_of(words::word(words))?;
    let words = words::behind(words);
    let tuple = number::decimal_of(words::word(words))?;
    let place = number::decimal_of(words::word(words::behind(words)))?;
    modes_of(newtype, tuple, place as usize)
}

// `bad` where the line is no case, else the kind by its name in the crate, or the refusal.
pub fn answer(words: &[u8], text: &mut [u8], o: &mut [u8], at: usize) -> usize
    ensures { ((o.new, result) ≡ put (o.old, at) (kind_line words.now text.old).0)
        × (text.new ≡ (kind_line words.now text.old).1) }
{
    let Some(asked) = front(words) else {
        return show::bad(o, at);
    };
    let Some(n) = hex::bytes(words::behind(words::behind(words::behind(words))), text) else {
        return show::bad(o, at);
    };
    let kind = sarridok::struct_kind(
        lines::part(&text[..], 0, n),
        asked.place,
        asked.newtype,
        asked.tuple,
    );
    show::struct_kind::kind(o, at, kind)
}
