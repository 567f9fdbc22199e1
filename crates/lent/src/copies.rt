// Numbers set aside before a call, and compared behind it.
ghost use Rattle.std.specs.Prelude.{◌≡◌};
ghost use Rattle.lines.specs.Over.{over};
ghost use Rattle.text.specs.Words.{starts_with};

// The first numbers, as far as there is room.
pub fn copy(from: &[u32], to: &mut [u32])
    ensures { to.new ≡ over from.now to.old }
{
    let n = from.len().min(to.len());
    to[..n].copy_from_slice(&from[..n]);
}

// Whether the numbers are the first of others.
pub fn same(s: &[u32], others: &[u32]) -> bool
    ensures { result ≡ starts_with s.now others.now }
{
    others.starts_with(s)
}
