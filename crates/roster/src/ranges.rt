ghost use Rattle.std.specs.Prelude.{◌≡◌, ℕ, true, length, None, slice_index_or};
ghost use Rattle.roster.specs.Runs.{in_range};

use crate::range::Range;

/// A roster by first value and count: each of the types 0 to 7 has a run of values, or is unknown until one is set.
/// Fixed memory in place of a map.
#[derive(Drop)]
pub struct Ranges {
    pub(crate) entries: [Option<Range>; 8],
    ghost full: { length entries ≡ 8 },
    ghost sound: { (ty : ℕ) → in_range (slice_index_or entries ty None) ≡ true },
}
