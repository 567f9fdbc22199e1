// The first of some fields whose name one before it has: of up to 16 each is compared with each, more are sorted, and then neighbours are compared.
ghost use Rattle.std.specs.Prelude.{None, ◌≡◌, true, ◌+◌, ◌*◌, ◌≤◌, ◌<◌, length, take};
ghost use Rattle.fields.specs.Names.{name_at, HasName};
ghost use Rattle.fields.specs.inner.Again.{FirstIn};
ghost use Rattle.fields.specs.inner.Again.{earlier as earlierOf};
ghost use Rattle.fields.specs.inner.Order.{comes_before, slot_of, paired_of, AllNamed, SameEntries, Tells};

use crate::comparing::{compare, same_name};
use crate::names::name_from;
use rows::row;

// The earlier of two entries that may be none.
pub fn earlier(a: Option<usize>, b: Option<usize>) -> Option<usize>
    ensures { result ≡ earlierOf a b }
{
    match a {
        None => b,
        Some(i) => match b {
            None => a,
            Some(j) => {
                if j < i {
                    return b;
                }
                a
            }
        },
    }
}

// Two fields of one name: the later repeats the other, unless they are one and the same.
fn paired(found: Option<usize>, x: u16, y: u16) -> Option<usize>
    ensures { result ≡ paired_of found x y }
{
    if x < y {
        return earlier(found, Some(y as usize));
    }
    if y < x {
        return earlier(found, Some(x as usize));
    }
    found
}

// A number below 128 for a name, by its length, first and last byte: another for most other names.
fn slot(text: &[u8], tape: &[u32], x: u16) -> usize
    requires { HasName text.now tape.now x }
    ensures { result ≡ slot_of (name_at text.now tape.now x) }
{
    let e = row::entry(tape, x as usize);
    let first = name_from(e);
    let last = e.end as usize - 1;
    let a = text[first] as usize;
    let b = text[last] as usize;
    let mixed = last - first + 8 * a + b;
    mixed % 128
}

// Whether no two fields share a slot, so that no name comes again: most records are told at once.
fn apart_at_once(text: &[u8], tape: &[u32], fields: &[u16]) -> bool
    requires { AllNamed text.now tape.now fields.now }
    ensures { result ≡ true → FirstIn (name_at text.now tape.now) fields.now None }
{
    let mut taken = [false; 128];
    for p in 0..fields.len() {
        let s = slot(text, tape, fields[p]);
        if taken[s] {
            return false;
        }
        taken[s] = true;
    }
    true
}

// The field at place p against each before it.
fn against(
    text: &[u8],
    tape: &[u32],
    fields: &[u16],
    p: usize,
    known: Option<usize>,
) -> Option<usize>
    requires { (p < length fields.now) × AllNamed text.now tape.now fields.now
        × FirstIn (name_at text.now tape.now) (take p fields.now) known }
    ensures { FirstIn (name_at text.now tape.now) (take (p + 1) fields.now) result }
{
    let y = fields[p];
    let mut found = known;
    for q in 0..p {
        let x = fields[q];
        if same_name(text, tape, x, y) {
            found = paired(found, x, y);
        }
    }
    found
}

// Each against each, however many and in whatever order.
fn each(text: &[u8], tape: &[u32], fields: &[u16]) -> Option<usize>
    requires { AllNamed text.now tape.now fields.now }
    ensures { FirstIn (name_at text.now tape.now) fields.now result }
{
    let mut found = None;
    for p in 0..fields.len() {
        found = against(text, tape, fields, p, found);
    }
    found
}

// Up to 16 fields.
fn few(text: &[u8], tape: &[u32], fields: &[u16]) -> Option<usize>
    requires { AllNamed text.now tape.now fields.now }
    ensures { FirstIn (name_at text.now tape.now) fields.now result }
{
    if apart_at_once(text, tape, fields) {
        return None;
    }
    each(text, tape, fields)
}

// Whether field x comes before field y: by its name, and of one name by its entry.
fn comes_before(text: &[u8], tape: &[u32], x: u16, y: u16) -> bool
    requires { HasName text.now tape.now x × HasName text.now tape.now y }
    ensures { result ≡ comes_before (name_at text.now tape.now) x y }
{
    let order = compare(text, tape, x, y);
    order.then(x.cmp(&y)).is_lt()
}

// Of the two places below p in a heap of n fields the one that holds the later field.
fn below(text: &[u8], tape: &[u32], fields: &[u16], p: usize, n: usize) -> usize
    requires { (2 * p + 1 < n) × (n ≤ length fields.now) × AllNamed text.now tape.now fields.now }
    ensures { (p < result) × (result < n) }
{
    let left = 2 * p + 1;
    if left + 1 < n {
        let right = left + 1;
        if comes_before(text, tape, fields[left], fields[right]) {
            return right;
        }
    }
    left
}

// The field at a place goes down until no later one is below it.
fn sift(text: &[u8], tape: &[u32], fields: &mut [u16], from: usize, n: usize)
    requires { (n ≤ length fields.old) × AllNamed text.now tape.now fields.old }
    ensures { SameEntries fields.old fields.new }
{
    let mut p = from;
    while p < n / 2 {
        let q = below(text, tape, &fields[..], p, n);
        if !comes_before(text, tape, fields[p], fields[q]) {
            return;
        }
        fields.swap(p, q);
        p = q;
    }
}

// Every field stands behind those below it.
fn heap(text: &[u8], tape: &[u32], fields: &mut [u16])
    requires { AllNamed text.now tape.now fields.old }
    ensures { SameEntries fields.old fields.new }
{
    let n = fields.len();
    for p in (0..n / 2).rev() {
        sift(text, tape, fields, p, n);
    }
}

// Heap sort: by names, and of one name by entries. That it sorts is not proved, since the look at neighbours tells.
// By hand, since std's sort calls itself, and a walk's stack is fixed.
fn sort(text: &[u8], tape: &[u32], fields: &mut [u16])
    requires { AllNamed text.now tape.now fields.old }
    ensures { SameEntries fields.old fields.new }
{
    heap(text, tape, fields);
    for n in (1..fields.len()).rev() {
        fields.swap(0, n);
        sift(text, tape, fields, 0, n);
    }
}

// Of sorted fields those of one name are neighbours; none where the fields were not sorted.
fn neighbours(text: &[u8], tape: &[u32], fields: &[u16]) -> Option<Option<usize>>
    requires { AllNamed text.now tape.now fields.now }
    ensures { Tells (name_at text.now tape.now) fields.now result }
{
    let mut found = None;
    for p in 1..fields.len() {
        let x = fields[p - 1];
        let y = fields[p];
        if !comes_before(text, tape, x, y) {
            return None;
        }
        if same_name(text, tape, x, y) {
            found = earlier(found, Some(y as usize));
        }
    }
    Some(found)
}

// The first of the fields that repeats one, or none; they are left in another order.
pub fn first_again(text: &[u8], tape: &[u32], fields: &mut [u16]) -> Option<usize>
    requires { (length fields.old ≤ 32768) × AllNamed text.now tape.now fields.old }
    ensures first { FirstIn (name_at text.now tape.now) fields.old result }
    ensures left { SameEntries fields.old fields.new }
{
    if fields.len() <= 16 {
        return few(text, tape, &fields[..]);
    }
    sort(text, tape, fields);
    match neighbours(text, tape, &fields[..]) {
        Some(found) => found,
        None => each(text, tape, &fields[..]),
    }
}
