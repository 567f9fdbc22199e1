// The answer of a repair.
ghost use Rattle.std.specs.Prelude.{◌≡◌};
ghost use Rattle.lines.specs.Out.{put};
ghost use Rattle.lines.specs.Decimal.{decimal};
ghost use Rattle.show.specs.Repairs.{counts_text, numbers_text};

use lines::out;

// How many entries there are now, and how many of them were kept before and behind.
pub fn counts(o: &mut [u8], at: usize, n: usize, before: usize, behind: usize) -> usize
    ensures { (o.new, result) ≡ put (o.old, at) (counts_text n before behind) }
{
    let a = out::bytes(o, at, b"ok");
    let b = out::word(o, a, n as u64);
    let c = out::word(o, b, before as u64);
    out::word(o, c, behind as u64)
}

// Every number of a slice, the first behind `;`.
pub fn numbers(o: &mut [u8], at: usize, s: &[u32]) -> usize
    ensures { (o.new, result) ≡ put (o.old, at) (numbers_text s.now) }
{
    let mut to = at;
    let mut between = b';';
    for n in s {
        let a = out::byte(o, to, between);
        to = number(o, a, *n);
        between = b' ';
    }
    to
}

fn number(o: &mut [u8], at: usize, n: u32) -> usize
    ensures { (o.new, result) ≡ put (o.old, at) (decimal n) }
{
    out::number(o, at, n as u64)
}
