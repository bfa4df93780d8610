ghost use Rattle.diagram.specs.Carrying.{CarriedIsCandidate, CandidatesAreComplete, CandidatesAreAtPositions};

/// No event that can move a diagram is missing among the candidates, so a menu that is taken from them is complete.
pub fn candidates_are_complete()
    ensures an_event_that_an_arrow_carries_is_a_candidate { CarriedIsCandidate }
    ensures an_event_that_moves_the_root_is_a_candidate { CandidatesAreComplete }
    ensures a_candidate_is_at_its_arrows_positions { CandidatesAreAtPositions }
{}
