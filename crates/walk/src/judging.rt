// Whether the entries of a tape are a document within a limit, none of whose fields is named again; nothing is written.
ghost use Rattle.std.specs.Prelude.{true, cond, ◌≡◌, ◌∷◌, ◌+◌, ◌*◌, ◌-◌, ◌<◌, ◌≤◌, length, set};
ghost use Rattle.rows.specs.Order.{in_order};
ghost use Rattle.rows.specs.Rows.{room_of, entries_of};
ghost use Rattle.grammar.specs.Kinds.{kinds_of};
ghost use Rattle.fields.specs.inner.Again.{earlier as earlierOf};
ghost use Rattle.fields.specs.Names.{name_at, raws_fit};
ghost use Rattle.fields.specs.Fields.{names_field, named_walk};
ghost use Rattle.walk.specs.inner.Gathered.{part, inner_of, outers_of, Rising, Fields, Alike, again_in, first_of, told_by};

use crate::turning::{Turn, comes_to};
use fields::again::{earlier, first_again};
use fields::naming::names_field;
use grammar::states::{Frame, Want};
use text::Refusal;

// What is found among the fields that lie from `from` to `to`.
fn compared(
    text: &[u8],
    tape: &[u32],
    fields: &mut [u16],
    from: usize,
    to: usize,
    found: Option<usize>,
) -> Option<usize>
    requires { (from ≤ to) × Fields text.now tape.now fields.old to }
    ensures told { result ≡ earlierOf found (again_in (name_at text.now tape.now) (part fields.old from (to - from))) }
    ensures kept { Alike fields.old fields.new from }
{
    earlier(found, first_again(text, tape, &mut fields[from..to]))
}

// The same when a bracket closes: most have no two fields, and are told without a call.
fn closed(
    text: &[u8],
    tape: &[u32],
    fields: &mut [u16],
    from: usize,
    to: usize,
    found: Option<usize>,
) -> Option<usize>
    requires { (from ≤ to) × Fields text.now tape.now fields.old to }
    ensures told { result ≡ earlierOf found (again_in (name_at text.now tape.now) (part fields.old from (to - from))) }
    ensures kept { Alike fields.old fields.new from }
{
    if to - from <= 1 {
        return found;
    }
    compared(text, tape, fields, from, to, found)
}

// What is found where the walk stops with so many brackets open.
fn still_open(
    text: &[u8],
    tape: &[u32],
    fields: &mut [u16],
    bases: &[usize; 128],
    depth: usize,
    top: usize,
    so_far: Option<usize>,
) -> Option<usize>
    requires { (depth ≤ 128) × Rising bases.now depth top × Fields text.now tape.now fields.old top }
    ensures { result ≡ earlierOf so_far (first_of (name_at text.now tape.now)
        (inner_of fields.old bases.now depth top ∷ outers_of fields.old bases.now depth)) }
{
    let mut found = so_far;
    let mut to = top;
    for d in (0..depth).rev() {
        found = closed(text, tape, fields, bases[d], to, found);
        to = bases[d];
    }
    compared(text, tape, fields, 0, to, found)
}

// A field named again comes before what the grammar says: it stands before it.
fn told(found: Option<usize>, verdict: Result<(), Refusal>) -> Result<(), Refusal>
    ensures { result ≡ told_by found verdict }
{
    match found {
        None => verdict,
        Some(j) => Err(Refusal::repeated_field(j)),
    }
}

// Behind an entry after which `want` is wanted: a field's name is put down, and how many there are now.
fn noted(fields: &mut [u16], top: usize, want: Want, i: usize) -> usize
    requires { (names_field want ≡ true → top < length fields.old) × (i < 65536) × (top ≤ 32768) }
    ensures counted { result ≡ cond (names_field want) (top + 1) top }
    ensures put { fields.new ≡ cond (names_field want) (set fields.old top i) fields.old }
{
    if names_field(want) {
        fields[top] = i as u16;
        return top + 1;
    }
    top
}

// The open brackets around the innermost one lie in `outer`, `depth` of them; the entries that name the fields of all of them lie in `fields`, `top` of
// them, and those of each bracket from its number in `bases` on. Arrays with their lengths, since nothing here takes heap memory;
// and a loop that counts, since it ends with a verdict: a `for` has no value, and what would stand behind it would never run.
fn judge_in(
    text: &[u8],
    tape: &[u32],
    count: usize,
    limit: usize,
    fields: &mut [u16],
) -> Result<(), Refusal>
    requires { (count ≤ room_of (length tape.now)) × (limit ≤ 128) × (count ≤ 65536)
        × (in_order (entries_of count tape.now) (length text.now) ≡ true) × (raws_fit text.now (entries_of count tape.now) ≡ true)
        × (count ≤ 2 * length fields.old) × (length fields.old ≤ 32768) }
    ensures { result ≡ named_walk (name_at text.now tape.now) (kinds_of (entries_of count tape.now)) limit }
{
    let mut outer = [Frame::Top; 128];
    let mut bases = [0usize; 128];
    let mut depth: usize = 0;
    let mut top: usize = 0;
    let mut want = Want::Start;
    let mut inside = Frame::Top;
    let mut found = None;
    let mut next: usize = 0;
    let verdict = loop {
        let i = next;
        next += 1;
        match comes_to(tape, count, limit, i, depth, want, inside) {
            Turn::Stay(w, f) => {
                want = w;
                inside = f;
                top = noted(fields, top, w, i);
            }
            Turn::Push(w, f) => {
                outer[depth] = inside;
                bases[depth] = top;
                depth += 1;
                want = w;
                inside = f;
            }
            Turn::Pop => {
                depth -= 1;
                found = closed(text, tape, fields, bases[depth], top, found);
                top = bases[depth];
                inside = outer[depth];
                want = Want::Behind;
            }
            Turn::Stop(v) => break v,
        }
    };
    let again = still_open(text, tape, fields, &bases, depth, top, found);
    told(again, verdict)
}

// With room for N fields: at most every second entry names one, and a shorter array has less to clear.
fn judge_within<const N: usize>(
    text: &[u8],
    tape: &[u32],
    count: usize,
    limit: usize,
) -> Result<(), Refusal>
    requires { (count ≤ room_of (length tape.now)) × (limit ≤ 128) × (count ≤ 65536)
        × (in_order (entries_of count tape.now) (length text.now) ≡ true) × (raws_fit text.now (entries_of count tape.now) ≡ true)
        × (count ≤ 2 * N) × (N ≤ 32768) }
    ensures { result ≡ named_walk (name_at text.now tape.now) (kinds_of (entries_of count tape.now)) limit }
{
    let mut fields = [0u16; N];
    judge_in(text, tape, count, limit, &mut fields)
}

// The verdict over the first `count` entries: that they are a document, or the refusal.
pub fn judge(text: &[u8], tape: &[u32], count: usize, limit: usize) -> Result<(), Refusal>
    requires { (count ≤ room_of (length tape.now)) × (limit ≤ 128) × (count ≤ 65536)
        × (in_order (entries_of count tape.now) (length text.now) ≡ true) × (raws_fit text.now (entries_of count tape.now) ≡ true) }
    ensures { result ≡ named_walk (name_at text.now tape.now) (kinds_of (entries_of count tape.now)) limit }
{
    if count <= 512 {
        return judge_within::<256>(text, tape, count, limit);
    }
    if count <= 8192 {
        return judge_within::<4096>(text, tape, count, limit);
    }
    judge_within::<32768>(text, tape, count, limit)
}
