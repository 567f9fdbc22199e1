// Marks on a lent slice of any element that has marks.
ghost use Rattle.std.specs.Prelude.{◌≡◌, ℕ, length, drop};
ghost use Rattle.lent.specs.Marks.{marked, kept_by};

// An element whose mark tells a place that no call has written.
pub(crate) trait Markable: Copy + PartialEq {
    ghost mark: { ℕ → Self };

    fn mark_at(i: usize) -> Self
        ensures { result ≡ mark i };
}

// Marks every place.
pub(crate) fn mark<T: Markable>(s: &mut [T])
    ensures { s.new ≡ marked T.mark (length s.old) 0 s.old }
{
    for i in 0..s.len() {
        s[i] = T::mark_at(i);
    }
}

// Whether all places from one on still have their marks.
pub(crate) fn kept<T: Markable>(s: &[T], from: usize) -> bool
    ensures { result ≡ kept_by T.eq T.mark (drop from s.now) from }
{
    for i in from..s.len() {
        if s[i] != T::mark_at(i) {
            return false;
        }
    }
    true
}
