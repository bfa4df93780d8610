ghost use Rattle.std.specs.Prelude.{◌≡◌, ℕ, ◌≤◌, length, take, drop, MatchResult};
ghost use Rattle.std.specs.List.{insert};
ghost use Rattle.ordered.specs.Order.{Rising};
ghost use Rattle.ordered.specs.Seeking.{MetAt, ComesAt};

use crate::rank::Rank;

/// Where x is met, or else where it comes in: by halves.
pub(crate) fn seek<T: Rank>(xs: &[T], x: &T) -> Result<usize, usize>
    requires { Rising T.rank xs.now }
    ensures { MatchResult result (MetAt T.rank xs.now x.now) (ComesAt T.rank xs.now x.now) }
{
    // the last is compared first, since what is put in mostly comes in order
    let Some(last) = xs.last() else {
        return Err(0);
    };
    if x.compare(last).is_gt() {
        return Err(xs.len());
    }
    xs.binary_search_by(|y| y.compare(x))
}

/// Puts x at `at` among the places up to `end`, with the others one place up. The one before `end` is overwritten.
#[tactic(auto, using(crate::proofs::Moved::puts, crate::proofs::Moved::leaves))]
pub(crate) fn insert_at<T: Copy>(places: &mut [T], at: usize, end: usize, x: T)
    requires { (at ≤ end) × (end ≤ length places.old) }
    ensures puts { take end places.new ≡ take end (insert places.old at x) }
    ensures leaves { (n : ℕ) → end ≤ n → drop n places.new ≡ drop n places.old }
{
    if at < end {
        places[at..end].rotate_right(1);
        places[at] = x;
    }
}
