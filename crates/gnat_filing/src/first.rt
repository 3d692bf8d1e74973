// The first best of a list.
ghost use Rattle.std.specs.Prelude.{◌≡◌, ◌<◌, ◌≤◌, Bool, length};
ghost use Rattle.gnat_theory.specs.Choice.{first_place as first_place_of};

// The place of the first that no other comes before.
pub(crate) fn first_place<T: Copy, F: Fn(T, T) -> bool>(xs: &[T], before: F) -> usize
    requires some { 1 ≤ length xs.now }
    requires callable { F.IsAlwaysCallable before }
    ensures below { result < length xs.now }
    ensures first { (test : T → T → Bool) → ((x y : T) (r : Bool) → F.post before x y r → r ≡ test x y) → first_place_of test xs.now ≡ result }
{
    let mut first = 0;
    for (i, x) in xs.iter().enumerate() {
        if before(*x, xs[first]) {
            first = i;
        }
    }
    first
}
