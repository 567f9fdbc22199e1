// The state that numbers say.
ghost use Rattle.std.specs.Prelude.{◌≡◌, get_or};
ghost use Rattle.stored.specs.Numbers.{gap_of, state_of};

use gaps::Open;
use pieces::state::Arrival;
use text::Refusal;

// The number at a place, 0 past the end.
fn number(s: &[u32], i: usize) -> u32
    ensures { result ≡ get_or s.now i 0 }
{
    s.get(i).copied().unwrap_or(0)
}

// What is open, by three numbers, if they say that.
#[tactic(auto, unfolding(crate::specs::Numbers::gap_of))]
fn gap_of(gap: u32, level: u32, last: u32) -> Option<Open>
    ensures { result ≡ gap_of gap level last }
{
    if gap == 3 {
        let last = u8::try_from(last).ok()?;
        return Some(Open::Block(level, last));
    }
    if level != 0 {
        return None;
    }
    if last != 0 {
        return None;
    }
    if gap == 0 {
        return Some(Open::Clear);
    }
    if gap == 1 {
        return Some(Open::Slash);
    }
    if gap == 2 {
        return Some(Open::Line);
    }
    None
}

// The state that nine numbers say, with so many bytes kept; none where no state has them.
#[tactic(auto, unfolding(crate::specs::Numbers::state_of))]
pub fn state_of(s: &[u32], kept: usize) -> Option<Arrival>
    ensures { result ≡ state_of s.now kept }
{
    let open = gap_of(number(s, 2), number(s, 3), number(s, 4))?;
    let refused = u8::try_from(number(s, 5)).ok()?;
    let reason = u8::try_from(number(s, 7)).ok()?;
    let refusal = Refusal {
        number: refused,
        reason,
        place: number(s, 6) as usize,
    };
    Some(Arrival {
        taken: number(s, 0) as usize,
        kept,
        part: number(s, 1) as usize,
        former: number(s, 8) as usize,
        gap: open,
        refusal,
    })
}
