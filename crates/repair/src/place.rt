// Places as a tape has them.
ghost use Rattle.std.specs.Prelude.{◌≡◌, ◌≤◌, ◌+◌};
ghost use Rattle.repair.specs.inner.Steps.{clipped};

// As the places of a text are: `usize` is no `From<u32>`.
pub fn wide(place: u32) -> usize
    ensures { result ≡ place }
{
    place as usize
}

// A place moved from b to e, where both it and the moved place fit: two sums, and no test in the loops that move rows.
pub fn moved_place(place: u32, b: usize, e: usize) -> u32
    requires { (b ≤ place) × (place + e ≤ b + 65536) }
    ensures { result ≡ clipped b e place }
{
    let moved = wide(place) - b + e;
    moved as u32
}
