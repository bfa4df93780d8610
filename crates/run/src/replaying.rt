ghost use Rattle.std.specs.Prelude.{◌≡◌, [], ◌∷◌, Some, length, take, drop};
ghost use Rattle.fault.specs.Asking.{IfRefused, UnlessRefused};
ghost use Rattle.host.specs.Meanings.{Told};
ghost use Rattle.rules.specs.Cells.{initial};
ghost use Rattle.diagram.specs.Valued.{kept_of};
ghost use Rattle.law.specs.Calls.{taken, taken_in, AllLawful, outcome_of, outcomes_of, states_after, states_then};
ghost use Rattle.opened.specs.Opening.{told_values};
ghost use Rattle.run.specs.Runs.{opened_with, tree_in, ceiling_in, states, Stands, WhereItStands, KeepsStanding};
ghost use Rattle.run.specs.Replays.{places_of, calls_made, outcome_in, outcomes_in, places_after, events_after, rehearsal_answer, made_by, logged, Draws, told_tree};

use crate::run::Run;
use event::event::Event;
use fault::fault::Fault;
use host::host::GuardHost;
use law::call::Call;
use procedure::procedure::Procedure;
use roster::roster::Roster;

/// How many places for events a call brings.
fn places_of(call: Call) -> usize
    ensures { result ≡ places_of call }
{
    match call {
        Call::Offer { .. } => 0,
        Call::Menu { places } => places,
    }
}

impl Run {
    /// Makes a call, with the places that it brings.
    fn make<H: GuardHost>(
        &mut self,
        host: &mut H,
        call: Call,
        places: &mut [Event],
    ) -> Result<usize, Fault>
        ensures comes_to_what_is_computed { length places.old ≡ places_of call → outcome_in call result places.new ≡ outcome_of (tree_in self.old) (ceiling_in self.old) (states self.old) (H.meaning host.old) call }
        ensures writes_what_it_lists { length places.old ≡ places_of call → places.new ≡ places_after (outcome_in call result places.new) places.old }
        ensures holds_the_states_after_it { states self.new ≡ states_after (tree_in self.old) (states self.old) (H.meaning host.old) (outcome_in call result places.new) }
        ensures tells_the_host_what_was_taken { Told (H.meaning host.old) (taken_in (outcome_in call result places.new)) (H.meaning host.new) }
        ensures keeps_what_it_was_opened_with { opened_with self.new ≡ opened_with self.old }
    {
        match call {
            Call::Offer { event } => self.offer(host, event),
            Call::Menu { .. } => self.menu(host, places),
        }
    }

    /// Makes calls in order, with one host. What each comes to goes into `answers`, and the events that menus list go into `events`, where the places
    /// of each menu come one after the other. The answer is how many calls were made: the first, as long as there is room.
    pub fn replay<H: GuardHost>(
        &mut self,
        host: &mut H,
        calls: &[Call],
        answers: &mut [Result<usize, Fault>],
        events: &mut [Event],
    ) -> usize
        ensures makes_as_many_calls_as_there_is_room_for { result ≡ calls_made calls.now (length answers.old) (length events.old) }
        ensures logs_what_each_comes_to { outcomes_in (take result calls.now) answers.new events.new ≡ outcomes_of (tree_in self.old) (ceiling_in self.old) (states self.old) (H.meaning host.old) (take result calls.now) }
        ensures leaves_later_answers { drop result answers.new ≡ drop result answers.old }
        ensures leaves_later_places { events.new ≡ events_after (outcomes_in (take result calls.now) answers.new events.new) events.old }
        ensures holds_the_states_after_them { states self.new ≡ states_then (tree_in self.old) (ceiling_in self.old) (states self.old) (H.meaning host.old) (take result calls.now) }
        ensures tells_the_host_what_was_taken { Told (H.meaning host.old) (taken [] (outcomes_in (take result calls.now) answers.new events.new)) (H.meaning host.new) }
        ensures keeps_what_it_was_opened_with { opened_with self.new ≡ opened_with self.old }
        ensures stands_as_the_law_says { KeepsStanding self.old (H.meaning host.old) (λ w. taken w (outcomes_in (take result calls.now) answers.new events.new)) self.new (H.meaning host.new) }
        ensures every_call_obeys_the_law { WhereItStands self.old (H.meaning host.old) (λ t ceiling m w. AllLawful t ceiling m w (outcomes_in (take result calls.now) answers.new events.new)) }
    {
        let mut at = 0;
        for (made, &call) in calls.iter().enumerate() {
            let places = places_of(call);
            if made == answers.len() || events.len() - at < places {
                return made;
            }
            let end = at + places;
            let answer = self.make(host, call, &mut events[at..end]);
            answers[made] = answer;
            at = end;
        }
        calls.len()
    }

    /// Goes the whole way: reads a file, opens what it draws, and makes calls. The answer is how many states the opening holds, and how many calls were made.
    pub fn rehearse<R: Roster, H: GuardHost>(
        &mut self,
        file: &[u8],
        roster: &R,
        ceiling: usize,
        host: &mut H,
        calls: &[Call],
        answers: &mut [Result<usize, Fault>],
        events: &mut [Event],
    ) -> Result<(usize, usize), Fault>
        ensures answers_as_the_questions_say { result ≡ rehearsal_answer file.now (R.values roster.now) ceiling (calls_made calls.now (length answers.old) (length events.old)) }
        ensures changes_nothing_when_refused { IfRefused result ((self.new ≡ self.old) × (host.new ≡ host.old) × (answers.new ≡ answers.old) × (events.new ≡ events.old)) }
        ensures is_opened_with_what_the_file_draws_unless_refused { UnlessRefused result (Draws file.now (λ d. opened_with self.new ≡ Some (record { drawing = d; values = kept_of (R.values roster.now); ceiling = ceiling }))) }
        ensures logs_what_each_comes_to_unless_refused { UnlessRefused result (Draws file.now (λ d. logged calls.now result answers.new events.new ≡ outcomes_of (told_tree (R.values roster.now) d) ceiling (initial (told_tree (R.values roster.now) d) ∷ []) (H.meaning host.old) (take (made_by result) calls.now))) }
        ensures leaves_later_answers { drop (made_by result) answers.new ≡ drop (made_by result) answers.old }
        ensures leaves_later_places { events.new ≡ events_after (logged calls.now result answers.new events.new) events.old }
        ensures holds_the_states_after_them_unless_refused { UnlessRefused result (Draws file.now (λ d. states self.new ≡ states_then (told_tree (R.values roster.now) d) ceiling (initial (told_tree (R.values roster.now) d) ∷ []) (H.meaning host.old) (take (made_by result) calls.now))) }
        ensures tells_the_host_what_was_taken { Told (H.meaning host.old) (taken [] (logged calls.now result answers.new events.new)) (H.meaning host.new) }
        ensures stands_as_the_law_says_unless_refused { UnlessRefused result (Draws file.now (λ d. Stands d (told_values (R.values roster.now)) ceiling (H.meaning host.old) (taken [] (logged calls.now result answers.new events.new)) self.new (H.meaning host.new))) }
        ensures every_call_obeys_the_law_unless_refused { UnlessRefused result (Draws file.now (λ d. AllLawful (told_tree (R.values roster.now) d) ceiling (H.meaning host.old) [] (logged calls.now result answers.new events.new))) }
    {
        let mut procedure = Procedure::new();
        procedure.read(file)?;
        let held = self.open(&procedure, roster, ceiling)?;
        Ok((held, self.replay(host, calls, answers, events)))
    }
}
