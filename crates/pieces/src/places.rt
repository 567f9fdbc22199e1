// The later and the sooner of two places.
ghost use Rattle.std.specs.Prelude.{◌≡◌};
ghost use Rattle.pieces.specs.Come.{later as laterOf, sooner as soonerOf};

pub fn later(a: usize, b: usize) -> usize
    ensures { result ≡ laterOf a b }
{
    a.max(b)
}

pub fn sooner(a: usize, b: usize) -> usize
    ensures { result ≡ soonerOf a b }
{
    a.min(b)
}
