ghost use Rattle.std.specs.Prelude.{◌≡◌, ℕ, [], ◌++◌, ◌≤◌, None, Some, Err, length, take};
ghost use Rattle.fault.specs.Asking.{IfRefused, UnlessRefused};
ghost use Rattle.procedure.specs.Procedures.{drawing};
ghost use Rattle.event.specs.Forms.{InForm};
ghost use Rattle.event.specs.declared.event.Event.{Event};
ghost use Rattle.host.specs.Meanings.{Meaning, Told};
ghost use Rattle.rules.specs.Cells.{initial};
ghost use Rattle.diagram.specs.Valued.{kept_of};
ghost use Rattle.law.specs.Chained.{no_successor, RefusedOutOfForm, RefusedWithoutChain, RefusedOverCeiling, TakenOtherwise, OfferedInstead, MenuLaw};
ghost use Rattle.law.specs.Offers.{offer_answer, held_after, taken_by};
ghost use Rattle.law.specs.Menus.{menu_events, menu_answer, written_over};
ghost use Rattle.opened.specs.Opening.{told_values, open_answer};
ghost use Rattle.run.specs.Runs.{opened_with, tree_in, ceiling_in, states, Stands, WhereItStands, KeepsStanding, OpensRun, listed_by};

use crate::run::Run;
use event::event::Event;
use fault::fault::{Fault, Question};
use host::host::GuardHost;
use opened::opened::Opened;
use procedure::procedure::Procedure;
use roster::roster::Roster;

impl Run {
    /// One that was never opened: it holds nothing, refuses each event in form with 16 at 0, and its menu is empty.
    pub fn new() -> Run
        ensures was_never_opened { opened_with result ≡ None }
        ensures holds_nothing { states result ≡ [] }
        ensures refuses_each_event_in_form_with_16_at_0 { (now : Meaning) (event : Event) → InForm event → offer_answer (tree_in result) (ceiling_in result) (states result) now event ≡ Err (no_successor 0) }
        ensures has_an_empty_menu { (now : Meaning) → menu_events (tree_in result) (states result) now ≡ [] }
    {
        Run { opened: None }
    }

    /// Opens a procedure under the values that a roster tells and a ceiling of held states, whatever was held before, and answers the number
    /// of held states, which is 1. A refusal leaves the run as it was. No host is asked or told anything.
    pub fn open<R: Roster>(
        &mut self,
        procedure: &Procedure,
        roster: &R,
        ceiling: usize,
    ) -> Result<usize, Fault>
        ensures answers_as_the_questions_say { result ≡ open_answer (drawing procedure.now) (R.values roster.now) ceiling }
        ensures takes_over_unless_refused { UnlessRefused result (OpensRun (drawing procedure.now) (R.values roster.now) ceiling self.new) }
        ensures stands_as_the_law_says_unless_refused { UnlessRefused result ((m : Meaning) → Stands (drawing procedure.now) (told_values (R.values roster.now)) ceiling m [] self.new m) }
        ensures changes_nothing_when_refused { IfRefused result (self.new ≡ self.old) }
    {
        let opened = Opened::of(procedure, roster, ceiling)?;
        let count = opened.held().len();
        self.opened = Some(opened);
        Ok(count)
    }

    /// Offers an event: unless it is refused, the held states become all successors of all of them, in order, each once; then the host is
    /// told; and the answer is their number. A refusal leaves run and host as they were.
    pub fn offer<H: GuardHost>(&mut self, host: &mut H, event: Event) -> Result<usize, Fault>
        ensures answers_as_the_questions_say { result ≡ offer_answer (tree_in self.old) (ceiling_in self.old) (states self.old) (H.meaning host.old) event }
        ensures holds_the_next_states_unless_refused { states self.new ≡ held_after (tree_in self.old) (states self.old) (H.meaning host.old) event result }
        ensures tells_the_host_what_was_taken { Told (H.meaning host.old) (taken_by event result) (H.meaning host.new) }
        ensures keeps_what_it_was_opened_with { opened_with self.new ≡ opened_with self.old }
        ensures changes_nothing_when_refused { IfRefused result ((self.new ≡ self.old) × (host.new ≡ host.old)) }
        ensures stands_as_the_law_says { KeepsStanding self.old (H.meaning host.old) (λ w. w ++ taken_by event result) self.new (H.meaning host.new) }
        ensures refuses_what_is_out_of_form { RefusedOutOfForm event result }
        ensures refuses_with_16_exactly_where_no_chain_goes_on { WhereItStands self.old (H.meaning host.old) (λ t ceiling m w. RefusedWithoutChain t m w event result) }
        ensures refuses_with_17_exactly_where_more_ends_come_than_the_ceiling { WhereItStands self.old (H.meaning host.old) (λ t ceiling m w. RefusedOverCeiling t ceiling m w event result) }
        ensures otherwise_takes_it_and_counts_the_ends { WhereItStands self.old (H.meaning host.old) (λ t ceiling m w. TakenOtherwise t ceiling m w event result) }
        ensures another_event_instead_would_be_refused_with_16_exactly_where_no_chain_goes_on { WhereItStands self.old (H.meaning host.old) (λ t ceiling m w. OfferedInstead t ceiling m w (states self.old) (H.meaning host.old)) }
    {
        event.in_form()?;
        let Some(opened) = &mut self.opened else {
            return Err(Question::SuccessorExists.at(0));
        };
        let count = opened.advance(host, event)?;
        host.tell(event);
        Ok(count)
    }

    /// Shows the menu: writes every event in form with a successor, in order, into the first places of a list, leaves later places as they were, and
    /// answers their number. Where the list has too few places it is refused, and the list holds the menu's first events.
    pub fn menu<H: GuardHost>(&self, host: &H, list: &mut [Event]) -> Result<usize, Fault>
        ensures answers_as_the_question_says { result ≡ menu_answer (length list.old) (menu_events (tree_in self.now) (states self.now) (H.meaning host.now)) }
        ensures writes_the_first_events { list.new ≡ written_over (menu_events (tree_in self.now) (states self.now) (H.meaning host.now)) list.old }
        ensures has_at_most_65536_events { length (menu_events (tree_in self.now) (states self.now) (H.meaning host.now)) ≤ 65536 }
        ensures lists_exactly_the_events_with_which_a_chain_goes_on { WhereItStands self.now (H.meaning host.now) (λ t ceiling m w. MenuLaw t m w (length list.old) result (take (listed_by (length list.old) result) list.new)) }
        ensures an_offer_instead_would_be_refused_with_16_exactly_where_no_chain_goes_on { WhereItStands self.now (H.meaning host.now) (λ t ceiling m w. OfferedInstead t ceiling m w (states self.now) (H.meaning host.now)) }
    {
        match &self.opened {
            None => Ok(0),
            Some(opened) => opened.menu(host, list),
        }
    }
}
