// Answers as text, at a place of an output buffer; each function answers the next place: what it puts out is a definition (specs/), over `lines::out`.
#![tactic(auto)]

pub mod contents;
pub mod hex;
pub mod integer;
pub mod many;
pub mod of_read;
pub mod of_repair;
pub mod of_walk;
pub mod skip;
pub mod struct_kind;

ghost use Rattle.std.specs.Prelude.{◌≡◌};
ghost use Rattle.lines.specs.Out.{put};
ghost use Rattle.show.specs.Answers.{bad_text, placed_text, refused_text, clean_text};

use lines::out;
use text::Refusal;

// The answer to a line that is no case.
pub fn bad(o: &mut [u8], at: usize) -> usize
    ensures { (o.new, result) ≡ put (o.old, at) bad_text }
{
    out::bytes(o, at, b"bad")
}

// Number and place, as document 01 prints them.
pub fn placed(o: &mut [u8], at: usize, r: Refusal) -> usize
    ensures { (o.new, result) ≡ put (o.old, at) (placed_text r) }
{
    let a = out::bytes(o, at, b"refused");
    let b = out::word(o, a, r.number as u64);
    out::word(o, b, r.place as u64)
}

// And with the reason, 0 where the number is not 13.
pub fn refused(o: &mut [u8], at: usize, r: Refusal) -> usize
    ensures { (o.new, result) ≡ put (o.old, at) (refused_text r) }
{
    let a = placed(o, at, r);
    out::word(o, a, r.reason as u64)
}

// Behind an answer: whether its call changed nothing that it may not.
pub fn clean(o: &mut [u8], at: usize, is: bool) -> usize
    ensures { (o.new, result) ≡ put (o.old, at) (clean_text is) }
{
    if is {
        return at;
    }
    out::bytes(o, at, b" DIRTY")
}
