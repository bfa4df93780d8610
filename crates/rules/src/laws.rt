ghost use Rattle.rules.specs.Laws.{ListedIsDerived, DerivedIsListed, ChainsBegin, ChainsGoOn, ChainsJoin, EndsAreListed, EndsRise, OnlyOneListOfEnds};
ghost use Rattle.rules.specs.Laws.{InitialHasWidth, SuccessorHasWidth, EndHasWidth, ProceduresAreSound, InitialInRange, SuccessorInRange, EndInRange};
ghost use Rattle.rules.specs.Laws.{BothSidesMove, OneSideMoves, AllInstancesMove, OneInstanceMovesAlone, NoInstanceNoMove, BothSidesFinish, EveryInstanceFinishes};
ghost use Rattle.rules.specs.Laws.{UnmarkedUnfinished, ShallowFinished, DeepFinished, SequenceFinished, GuardAskedOnce, GuardFinished, ClosureStarts, ClosureRestartsOnlyFinished, FinishedClosureRestarts, ElementaryIsNotWaitedFor, ChoiceFinished, QuantifiedChoiceFinished};
ghost use Rattle.rules.specs.Laws.{SuccessorIsCarried, MoreGuardsMoveMore, CarriedIsCandidate, MenuIsExact, MenuGoesOn, MenuRises, TreesUnfold, ChildrenAreBelow};

/// The computed moves are exactly those that the rules derive.
pub fn moves_are_adequate()
    ensures what_is_listed_is_derived { ListedIsDerived }
    ensures what_is_derived_is_listed { DerivedIsListed }
{}

/// How chains begin, go on, and join.
pub fn chains_grow()
    ensures over_no_event_they_end_where_they_start { ChainsBegin }
    ensures over_one_event_more_they_go_on_by_a_successor { ChainsGoOn }
    ensures over_two_lists_they_join { ChainsJoin }
{}

/// The computed ends are exactly those of the chains, rising, and there is no other such list.
pub fn ends_are_computed()
    ensures they_are_the_ends_of_chains { EndsAreListed }
    ensures they_rise { EndsRise }
    ensures there_is_one_such_list { OnlyOneListOfEnds }
{}

/// A part keeps its width.
pub fn widths_stay()
    ensures initial_cells_have_the_width { InitialHasWidth }
    ensures successors_have_the_width { SuccessorHasWidth }
    ensures ends_have_the_width { EndHasWidth }
{}

/// State numbers and tags stay within their bounds.
pub fn cells_stay_in_range()
    ensures diagrams_of_procedures_are_sound { ProceduresAreSound }
    ensures initial_cells_are_in_range { InitialInRange }
    ensures successors_are_in_range { SuccessorInRange }
    ensures ends_are_in_range { EndInRange }
{}

/// Synchronisations, side by side and instance by instance.
pub fn synchronisations_move()
    ensures in_the_set_both_sides_move { BothSidesMove }
    ensures outside_the_set_one_side_moves { OneSideMoves }
    ensures in_the_set_every_instance_moves { AllInstancesMove }
    ensures outside_the_set_one_instance_moves { OneInstanceMovesAlone }
    ensures without_a_value_nothing_moves { NoInstanceNoMove }
{}

/// When synchronisations are finished.
pub fn synchronisations_finish()
    ensures both_sides_are_finished { BothSidesFinish }
    ensures every_instance_is_finished { EveryInstanceFinishes }
{}

/// The points where readings of the rules go astray.
pub fn readings_are_settled()
    ensures an_unmarked_state_is_not_finished { UnmarkedUnfinished }
    ensures a_shallow_state_is_finished { ShallowFinished }
    ensures a_deep_state_is_finished_as_its_child { DeepFinished }
    ensures a_sequence_finishes_with_both_parts { SequenceFinished }
    ensures a_guard_is_asked_once { GuardAskedOnce }
    ensures a_guard_not_started_is_finished_as_its_body_begins { GuardFinished }
    ensures a_closure_starts_by_its_body { ClosureStarts }
    ensures a_closure_restarts_only_when_finished { ClosureRestartsOnlyFinished }
    ensures a_finished_closure_restarts { FinishedClosureRestarts }
    ensures an_elementary_state_is_not_waited_for { ElementaryIsNotWaitedFor }
    ensures a_choice_not_begun_is_finished_by_either_side { ChoiceFinished }
    ensures a_quantified_choice_not_begun_is_finished_as_its_body_begins { QuantifiedChoiceFinished }
{}

/// A guard can only keep an event from moving something.
pub fn guards_only_hinder()
    ensures where_they_say_yes_to_more_what_moved_still_moves { MoreGuardsMoveMore }
{}

/// Every event that can move a diagram comes from one of its arrows, so a menu can be complete.
pub fn menus_are_complete()
    ensures a_successors_event_is_carried { SuccessorIsCarried }
    ensures a_carried_event_is_a_candidate { CarriedIsCandidate }
    ensures the_computed_menu_is_exact { MenuIsExact }
    ensures the_computed_menu_holds_nothing_else { MenuGoesOn }
    ensures the_computed_menu_rises { MenuRises }
{}

/// A node's tree is made of its children's trees.
pub fn trees_unfold()
    ensures a_tree_is_made_of_its_childrens { TreesUnfold }
    ensures children_are_below_their_node { ChildrenAreBelow }
{}
