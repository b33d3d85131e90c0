// What nothing uses is zero. The fold leaves at no element, so that many elements are tested a turn.
ghost use Rattle.std.specs.Prelude.{◌≡◌, ◌&&◌, true, drop, fold};

// Whether every element is `x`.
fn all_are<T: PartialEq>(s: &[T], x: &T) -> bool
    ensures { result ≡ fold (λ all y. all && T.eq y x.now) true s.now }
{
    s.iter().fold(true, |all, y| all & (*y == *x))
}

// Whether every element from a place on is `x`.
pub(crate) fn all_from<T: PartialEq>(s: &[T], from: usize, x: &T) -> bool
    ensures { result ≡ fold (λ all y. all && T.eq y x.now) true (drop from s.now) }
{
    // `skip` tests at each element whether it is past, and is twenty times slower.
    all_are(&s[from.min(s.len())..], x)
}
