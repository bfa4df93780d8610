ghost use Rattle.std.specs.Prelude.{◌≡◌};
ghost use Rattle.std.specs.declared.cmp.Ordering.TheVariants.{Less, Equal};
ghost use Rattle.std.specs.declared.cmp.Ordering.{Ordering};
ghost use Rattle.std.specs.Ordering.{ordering_reverse};

use std::cmp::Ordering;

/// A total order in which equal values are the same. It stands beside `Ord`, where equal need not mean the same, and which would ask
/// an `==` of every element besides.
pub trait Rank: Sized {
    /// How the first stands to the second.
    ghost rank: { Self → Self → Ordering };

    fn compare(&self, other: &Self) -> Ordering
        ensures is_the_rank { result ≡ rank self.now other.now };

    /// Turned round, the answer is the reverse.
    ghost flip: { (x y : Self) → rank x y ≡ ordering_reverse (rank y x) };

    /// Less and less make less.
    ghost chain: { (x y z : Self) → rank x y ≡ Less → rank y z ≡ Less → rank x z ≡ Less };

    /// Equal means the same value.
    ghost same: { (x y : Self) → rank x y ≡ Equal → x ≡ y };
}
