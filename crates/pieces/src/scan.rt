// The tokens of a part: how many, where the last ends, and how the reading of the part ends. It is the first pass of a read.
ghost use Rattle.std.specs.Prelude.{◌≡◌, ◌≤◌, length};
ghost use Rattle.pieces.specs.inner.Scans.{scanned_of};

use read::measure;
use read::scanned::Scanned;

// The entries of a part, and how its reading ends.
pub fn scan(part: &[u8]) -> Scanned
    requires { length part.now ≤ 65536 }
    ensures { result ≡ scanned_of part.now }
{
    measure::scan(part)
}
