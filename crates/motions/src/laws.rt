ghost use Rattle.motions.specs.Laws.{FitExcludesOverflow};

/// A list that all reached rows fit into and an overflow exclude each other.
pub fn outcomes_are_told_apart()
    ensures a_fit_excludes_an_overflow { FitExcludesOverflow }
{}
