ghost use Rattle.rules.specs.Examples.{AxleBegins, AxleSelected, AxleStored, SidesApart, SidesTogether, UnevenSides, HandingOver, HandingOn, EitherSide, Deciding, GuardedSteps, GuardedAgain, GuardedWay, Wheels, Waiting, ComingBack, WaitingAlone, Shift, Fork, Nested, Choosy, ExamplesAreSound};

/// Small diagrams have the rows and menus that are written beside them, and no others.
pub fn examples_hold()
    ensures an_axle_is_selected { AxleBegins }
    ensures that_axle_is_measured { AxleSelected }
    ensures then_the_next_axle { AxleStored }
    ensures two_sides_move_apart { SidesApart }
    ensures two_sides_move_together { SidesTogether }
    ensures two_sides_begin_each_in_its_state { UnevenSides }
    ensures a_first_part_goes_on_or_hands_over { HandingOver }
    ensures a_second_part_goes_on { HandingOn }
    ensures a_choice_keeps_both_sides { EitherSide }
    ensures a_later_event_decides { Deciding }
    ensures a_guard_is_asked_at_the_first_event { GuardedSteps }
    ensures a_guard_is_asked_at_each_start { GuardedAgain }
    ensures an_arrows_guard_is_asked_at_every_event { GuardedWay }
    ensures all_wheels_are_stored_at_once { Wheels }
    ensures an_arrow_waits_for_a_child { Waiting }
    ensures a_child_begins_anew { ComingBack }
    ensures an_arrow_waits_for_no_elementary_state { WaitingAlone }
    ensures a_sequence_restarts_after_both_parts { Shift }
    ensures two_arrows_give_one_row_and_one_event_two { Fork }
    ensures nested_binders_give_outer_and_inner { Nested }
    ensures guards_look_at_the_variables { Choosy }
    ensures procedures_may_hold_them { ExamplesAreSound }
{}
