ghost use Rattle.std.specs.Prelude.{◌≡◌, ℕ, [], ◌<◌, ◌≤◌, MatchResult, length, map};
ghost use Rattle.std.specs.List.{All};
ghost use Rattle.host.specs.Meanings.{Meaning};
ghost use Rattle.rules.specs.Cells.{fit};
ghost use Rattle.rules.specs.Chains.{answers_after};
ghost use Rattle.answers.specs.Answering.{Agrees};
ghost use Rattle.opened.specs.Advancing.{next_of, Answered, Takes, Advances};
ghost use Rattle.opened.specs.Opens.{with_of};
ghost use Rattle.opened.specs.States.{states_in, FindsAll};

use crate::opened::Opened;
use answers::answers::{Answers, Entries};
use event::event::Event;
use fault::fault::{Fault, Question};
use host::host::GuardHost;
use ordered::list::Ordered;
use row::row::Row;
use search::overflow::Overflow;
use search::search::Search;

const EMPTY: Row = Row { cells: [0; 48] };

impl Opened {
    /// Puts the rows of the next states into lent places. The answer is how many there are, or that there are more than places. Nothing is changed.
    fn reach(&self, answers: &Answers, places: &mut [Row]) -> Result<usize, Overflow>
        requires are_few { length places.old ≤ 128 }
        ensures finds_all_unless_they_are_more { (now : Meaning) → Agrees self.now.diagram answers.now (answers_after now [] answers.now.event) → MatchResult result
            (λ n. FindsAll self.now.held.width (next_of self.now now answers.now.event) n places.new)
            (λ _. length places.old < length (next_of self.now now answers.now.event)) }
        ensures keeps_the_places { length places.new ≡ length places.old }
        ensures answers_within_the_places { MatchResult result (λ n. n ≤ length places.new) (λ _. Unit {0}) }
    {
        let search = Search {
            diagram: &self.diagram,
            answers,
        };
        let mut out = Ordered::over(places);
        search.each(self.root, self.held.rows(), &mut out)?;
        Ok(out.len())
    }

    /// Question 16 of the states that were found, and the taking.
    fn take(&mut self, next: &[Row]) -> Result<usize, Fault>
        requires are_few { length next.now ≤ 128 }
        requires are_filled { All (λ row. row.cells ≡ fit 48 (fit self.old.held.width row.cells)) next.now }
        ensures holds_them_unless_there_are_none { Takes next.now self.old self.new result }
        ensures keeps_what_it_was_opened_with { with_of self.new ≡ with_of self.old }
    {
        if next.is_empty() {
            return Err(Question::SuccessorExists.at(self.held.len()));
        }
        self.held.put(next);
        Ok(next.len())
    }

    /// Finds the next states in as many places as the ceiling allows, and takes them.
    // out of line, so that what finds few states clears no more than few places
    #[inline(never)]
    fn advance_to_many(&mut self, answers: &Answers) -> Result<usize, Fault>
        requires are_a_hosts { Answered self.old.diagram answers.now }
        ensures takes_the_next_states_or_tells_the_first_no { (now : Meaning) → Agrees self.old.diagram answers.now (answers_after now [] answers.now.event) → Advances now answers.now.event self.old self.new result }
        ensures keeps_what_it_was_opened_with { with_of self.new ≡ with_of self.old }
    {
        let mut places = [EMPTY; 128];
        let Ok(used) = self.reach(answers, &mut places[..self.ceiling]) else {
            return Err(Question::SuccessorsWithinCeiling.at(self.ceiling));
        };
        self.take(&places[..used])
    }

    /// The same, first in few places where few states are held: mostly few come next.
    fn advance_with(&mut self, answers: &Answers) -> Result<usize, Fault>
        requires are_a_hosts { Answered self.old.diagram answers.now }
        ensures takes_the_next_states_or_tells_the_first_no { (now : Meaning) → Agrees self.old.diagram answers.now (answers_after now [] answers.now.event) → Advances now answers.now.event self.old self.new result }
        ensures keeps_what_it_was_opened_with { with_of self.new ≡ with_of self.old }
    {
        if self.held.len() <= 4 {
            let mut places = [EMPTY; 8];
            if let Ok(used) = self.reach(answers, &mut places[..self.ceiling.min(8)]) {
                return self.take(&places[..used]);
            }
        }
        self.advance_to_many(answers)
    }

    /// The same where the host is still to be asked, with room for the answers of any diagram's guards.
    // out of line, so that a small diagram's offer clears no more than little room
    #[inline(never)]
    fn advance_large<H: GuardHost>(&mut self, host: &H, event: Event) -> Result<usize, Fault>
        ensures takes_the_next_states_or_tells_the_first_no { Advances (H.meaning host.now) event self.old self.new result }
        ensures keeps_what_it_was_opened_with { with_of self.new ≡ with_of self.old }
    {
        let mut entries = Entries::<64, 256>::none();
        let answers = entries.ask(&self.diagram, host, event);
        self.advance_with(&answers)
    }

    /// Questions 16 and 17 of an event, and the taking: unless one is answered no, the states that come next are held in place of these. The host is told nothing.
    pub fn advance<H: GuardHost>(&mut self, host: &H, event: Event) -> Result<usize, Fault>
        ensures takes_the_next_states_or_tells_the_first_no { Advances (H.meaning host.now) event self.old self.new result }
        ensures keeps_what_it_was_opened_with { with_of self.new ≡ with_of self.old }
    {
        if !self.is_small() {
            return self.advance_large(host, event);
        }
        let mut entries = Entries::<8, 24>::none();
        let answers = entries.ask(&self.diagram, host, event);
        self.advance_with(&answers)
    }
}
