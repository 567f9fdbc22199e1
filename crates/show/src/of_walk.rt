// The answer of a walk.
ghost use Rattle.std.specs.Prelude.{◌≡◌};
ghost use Rattle.lines.specs.Out.{put};
ghost use Rattle.lines.specs.Decimal.{word_of};
ghost use Rattle.show.specs.Walks.{links_text};

use lines::out;

fn link(o: &mut [u8], at: usize, n: u32) -> usize
    ensures { (o.new, result) ≡ put (o.old, at) (word_of n) }
{
    out::word(o, at, n as u64)
}

// One word for each link.
pub fn links(o: &mut [u8], at: usize, s: &[u32]) -> usize
    ensures { (o.new, result) ≡ put (o.old, at) (links_text s.now) }
{
    let mut to = out::bytes(o, at, b"ok");
    for n in s {
        to = link(o, to, *n);
    }
    to
}
