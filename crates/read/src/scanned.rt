// What a pass comes to: how many entries, where they end, and how the reading does.
ghost use Rattle.std.specs.Prelude.{◌≡◌};

use text::Refusal;

// What was read.
#[derive(Clone, Copy)]
pub struct Scanned {
    // How many entries.
    pub count: usize,
    // Where the last of them ends, and where the one before it does; the beginning where there is none.
    pub end: usize,
    pub before: usize,
    pub ending: Result<(), Refusal>,
}

// So many entries, where the last two end, and how the reading does.
pub fn told(count: usize, end: usize, before: usize, ending: Result<(), Refusal>) -> Scanned
    ensures { result ≡ record { count = count; end = end; before = before; ending = ending } }
{
    Scanned {
        count,
        end,
        before,
        ending,
    }
}
