// The items of a list of integers: one of them, and all, first judged and then written.
ghost use Rattle.std.specs.Prelude.{Ok, cond, ◌≡◌, ◌+◌, ◌≤◌, drop, length};
ghost use Rattle.text.specs.Judged.{judged_of};
ghost use Rattle.text.specs.Refusals.{at_place};
ghost use Rattle.integers.specs.Width.{width_at};
ghost use Rattle.rows.specs.Rows.{room_of};
ghost use Rattle.sarridok.specs.Typed.{integer_at};
ghost use Rattle.sarridok.specs.Integers.{names_integer, entry_integer, item_of, items_from, filled};
ghost use Rattle.sarridok.specs.inner.Items.{at_item, coded_in, verdict_of};

use crate::integer_call::integer_at;
use integers::Integer;
use integers::width::width_at;
use plain_numbers::short::{Short, short_integer};
use rows::{Entry, kinds, row};
use text::Refusal;
use text::judge::place_fits;

// What is written for an item: "the magnitude and a code".
#[derive(Clone, Copy)]
pub struct Coded {
    pub magnitude: u64,
    pub code: u8,
}

// The same refusal at an item's number.
fn at_item(refusal: Refusal, k: usize) -> Refusal
    ensures { result ≡ at_place refusal k }
{
    Refusal {
        number: refusal.number,
        reason: refusal.reason,
        place: k,
    }
}

// The width, with 16 added below zero.
fn code_for(width: u8, minus: bool) -> u8
    requires { width ≤ 8 }
    ensures { result ≡ width + cond minus 16 0 }
{
    if minus {
        return width + 16;
    }
    width
}

// What is written for a number that was read, its magnitude and code; or the refusal, at the number k of its item.
fn coded_item(read: Integer, width: u8, k: usize) -> Result<Coded, Refusal>
    requires { width ≤ 8 }
    ensures { result ≡ at_item k (coded_in width read) }
{
    match read {
        Integer::Read(value, _) => {
            let code = code_for(width, value.minus);
            Ok(Coded {
                magnitude: value.magnitude,
                code,
            })
        }
        Integer::OtherSuffix => Err(at_item(Refusal::other_kind(), k)),
        Integer::Refused(refusal) => Err(at_item(refusal, k)),
    }
}

// The integer at the front of a part, as item k; a short one without the general reader.
fn integer_in(s: &[u8], width: u8, k: usize) -> Result<Coded, Refusal>
    requires { width ≤ 8 }
    ensures { result ≡ at_item k (coded_in width (integer_at (width_at width) s.now)) }
{
    let short = short_integer(s, width);
    match short {
        Short::Value(magnitude, _) => Ok(Coded {
            magnitude,
            code: width,
        }),
        Short::Other => coded_item(integer_at(s, width_at(width)), width, k),
    }
}

// The entry is an integer's, of a width.
fn names_integer(e: Entry) -> bool
    ensures { result ≡ names_integer e }
{
    if e.kind != kinds::INTEGER {
        return false;
    }
    if e.detail < 1 {
        return false;
    }
    if 8 < e.detail {
        return false;
    }
    true
}

// The integer that an entry names, in its own width, as item k.
fn entry_integer(text: &[u8], e: Entry, k: usize) -> Result<Coded, Refusal>
    requires { judged_of text.now ≡ Ok tt }
    ensures { result ≡ at_item k (entry_integer text.now e) }
{
    let start = e.start as usize;
    if !place_fits(text, start) {
        return Err(at_item(Refusal::unfit(), k));
    }
    if !names_integer(e) {
        return Err(at_item(Refusal::other_kind(), k));
    }
    integer_in(&text[start..], e.detail as u8, k)
}

// Item k of a list, an entry number.
fn item_at(text: &[u8], tape: &[u32], count: usize, number: u32, k: usize) -> Result<Coded, Refusal>
    requires { (judged_of text.now ≡ Ok tt) × (count ≤ room_of (length tape.now)) }
    ensures { result ≡ at_item k (item_of text.now tape.now count number) }
{
    let i = number as usize;
    if count <= i {
        return Err(at_item(Refusal::unfit(), k));
    }
    entry_integer(text, row::entry(tape, i), k)
}

// The refusal of the first item that has one.
pub fn judge_items(text: &[u8], tape: &[u32], count: usize, items: &[u32]) -> Result<(), Refusal>
    requires { (judged_of text.now ≡ Ok tt) × (count ≤ room_of (length tape.now)) }
    ensures { result ≡ verdict_of (items_from text.now tape.now count items.now 0) }
{
    for (k, number) in items.iter().enumerate() {
        item_at(text, tape, count, *number, k)?;
    }
    Ok(())
}

// Every item's magnitude and code, once it is known that all read.
pub fn write_items(
    text: &[u8],
    tape: &[u32],
    count: usize,
    items: &[u32],
    magnitudes: &mut [u64],
    codes: &mut [u8],
)
    requires { (judged_of text.now ≡ Ok tt) × (count ≤ room_of (length tape.now))
        × (verdict_of (items_from text.now tape.now count items.now 0) ≡ Ok tt)
        × (length items.now ≤ length magnitudes.old) × (length items.now ≤ length codes.old) }
    ensures magnitudes { magnitudes.new ≡ filled (λ (c : Coded). c.magnitude)
        (items_from text.now tape.now count items.now 0) magnitudes.old }
    ensures codes { codes.new ≡ filled (λ (c : Coded). c.code)
        (items_from text.now tape.now count items.now 0) codes.old }
{
    for (k, number) in items.iter().enumerate() {
        let read = item_at(text, tape, count, *number, k);
        let Ok(item) = read else {
            return;
        };
        magnitudes[k] = item.magnitude;
        codes[k] = item.code;
    }
}
