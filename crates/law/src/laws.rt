ghost use Rattle.law.specs.Laws.{LawDecides, ComputedObeys};

/// The law leaves no answer free.
pub fn the_law_decides()
    ensures two_logs_that_obey_it_are_equal { LawDecides }
{}

/// It can be obeyed: what the rules' computed successors say of any calls obeys it.
pub fn what_is_computed_obeys_the_law()
    ensures it_obeys { ComputedObeys }
{}
