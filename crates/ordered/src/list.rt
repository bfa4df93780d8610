ghost use Rattle.std.specs.Prelude.{◌≤◌, length, take};
ghost use Rattle.ordered.specs.Order.{Rising, Rising-prop};

use crate::rank::Rank;

/// A list in the first places of a slice that the caller lends, since there is no heap; it is in rising order without repeats.
#[derive(Drop)]
pub struct Ordered<'a, T: Rank> {
    pub(crate) places: &'a mut [T],
    /// How many places are in use.
    pub(crate) used: usize,
    ghost fits: { used ≤ length places.now },
    ghost rises: { Rising T.rank (take used places.now) } by { Rising-prop T.rank (take used places.now) },
}
