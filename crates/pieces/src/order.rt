// A state in order: numbers only.
ghost use Rattle.std.specs.Prelude.{◌&&◌, ◌≡◌, ◌+◌, leb};
ghost use Rattle.pieces.specs.Orders.{in_order, is_clear, is_given, is_none, kept_fits, open_fits, reason_fits, refusal_fits};

use crate::state::Arrival;
use gaps::Open;
use text::Refusal;
use text::classes::is_within;

const MOST_TAKEN: usize = 65536;

const MOST_HELD: usize = 4096;

// Nothing is open.
pub fn is_clear(left: Open) -> bool
    ensures { result ≡ is_clear left }
{
    match left {
        Open::Clear => true,
        Open::Slash => false,
        Open::Line => false,
        Open::Block(_, _) => false,
    }
}

// What is open may be so behind so many bytes.
fn open_fits(left: Open, taken: usize) -> bool
    ensures { result ≡ open_fits left taken }
{
    match left {
        Open::Clear => true,
        Open::Slash => true,
        Open::Line => true,
        Open::Block(level, last) => {
            if taken < level as usize {
                return false;
            }
            if last == 0 {
                return true;
            }
            if last == b'*' {
                return true;
            }
            if last == b'/' {
                return true;
            }
            false
        }
    }
}

// No refusal was given; field by field, since `Refusal` has no `==`.
fn is_none(r: Refusal) -> bool
    ensures { result ≡ is_none r }
{
    if r.number != 0 {
        return false;
    }
    if r.reason != 0 {
        return false;
    }
    if r.place != 0 {
        return false;
    }
    true
}

// The reason of an escape with 13, and 0 with every other number.
fn reason_fits(r: Refusal) -> bool
    ensures { result ≡ reason_fits r }
{
    if r.number == Refusal::INVALID_ESCAPE {
        return is_within(1, 8, r.reason);
    }
    if r.reason == 0 {
        return true;
    }
    false
}

// A refusal that may have been given behind so many bytes.
fn is_given(r: Refusal, taken: usize) -> bool
    ensures { result ≡ is_given r taken }
{
    if !is_within(1, 21, r.number) {
        if r.number != Refusal::ENTRY_TOO_LONG {
            return false;
        }
    }
    if taken < r.place {
        return false;
    }
    reason_fits(r)
}

// No refusal was given, or one was, and behind it nothing is kept or open.
fn refusal_fits(a: Arrival) -> bool
    ensures { result ≡ refusal_fits a }
{
    if is_none(a.refusal) {
        return true;
    }
    if !is_given(a.refusal, a.taken) {
        return false;
    }
    if a.kept != 0 {
        return false;
    }
    let gap = a.gap;
    is_clear(gap)
}

// What is kept is no more than may be held, behind the end of the last entry.
fn kept_fits(a: Arrival) -> bool
    ensures { result ≡ kept_fits a }
{
    if 3 < a.part {
        return false;
    }
    if a.kept < a.part {
        return false;
    }
    if MOST_HELD < a.kept {
        return false;
    }
    if a.taken < a.kept {
        return false;
    }
    if a.taken - a.kept < a.former {
        return false;
    }
    let gap = a.gap;
    if is_clear(gap) {
        return true;
    }
    a.kept == a.part
}

// A state in order.
pub fn in_order(a: Arrival) -> bool
    ensures { result ≡ in_order a }
{
    if MOST_TAKEN < a.taken {
        return false;
    }
    if !kept_fits(a) {
        return false;
    }
    let gap = a.gap;
    if !open_fits(gap, a.taken) {
        return false;
    }
    refusal_fits(a)
}

// A state in order, and a piece of n bytes behind what is kept within a buffer of so many.
pub fn fits(a: Arrival, buffer: usize, n: usize) -> bool
    ensures { result ≡ (in_order a && leb (a.kept + n) buffer) }
{
    if !in_order(a) {
        return false;
    }
    if buffer < a.kept {
        return false;
    }
    n <= buffer - a.kept
}
