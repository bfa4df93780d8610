ghost use Rattle.std.specs.Prelude.{◌≡◌, ℕ, ◌<◌, ◌≤◌, false, List, [], ◌∷◌, map, set, Some, None, ◌==◌, nat_lt, slice_index_or, slice_set};
ghost use Rattle.fault.specs.Asking.{refusal, answer_or, IfRefused, UnlessRefused};
ghost use Rattle.event.specs.declared.event.Event.{Event};
ghost use Rattle.host.specs.Meanings.{Told};
ghost use Rattle.host.specs.Tallying.{events_of, tally_answer, tallies_answer, heard, tally_asks};

use crate::host::GuardHost;
use crate::tallies::Tallies;
use crate::tally::Tally;
use crate::variables::Variables;
use event::event::Event;
use fault::fault::{Fault, Question};

impl Tally {
    /// Whether an event has its label.
    fn counts(self, event: Event) -> bool
        ensures tells { result ≡ (event.label == self.label) }
        ensures narrow { self.bound ≤ 65535 }
    {
        self.label == event.label
    }
}

/// Counts an event if it has the entry's label.
fn count(entry: &mut Option<Tally>, event: Event)
    ensures counts { entry.new ≡ heard event entry.old }
    ensures answers { (w : List Event) → tally_answer entry.new w ≡ tally_answer entry.old (event ∷ w) }
{
    if let Some(tally) = entry
        && tally.counts(event)
    {
        tally.told = tally.told.saturating_add(1);
    }
}

impl Tallies {
    /// Counts an event in every entry with its label.
    fn hear(&mut self, event: Event)
        ensures counts { (k : ℕ) → k < 32 → slice_index_or self.new.entries k None ≡ heard event (slice_index_or self.old.entries k None) }
        ensures answers { (k : ℕ) (w : List Event) → k < 32 → tally_answer (slice_index_or self.new.entries k None) w ≡ tally_answer (slice_index_or self.old.entries k None) (event ∷ w) }
    {
        for entry in &mut self.entries {
            count(entry, event);
        }
    }

    /// Sets the tally of a guard, in place of the one it had, with nothing told yet.
    pub fn set(&mut self, guard: u16, label: u16, bound: u16) -> Result<(), Fault>
        ensures refuses_at_the_first_wrong_field { result ≡ answer_or (refusal (tally_asks guard label bound)) tt }
        ensures changes_nothing_if_refused { IfRefused result (self.new ≡ self.old) }
        ensures replaces_one_entry_unless_refused { UnlessRefused result (self.new.entries ≡ slice_set self.old.entries guard (Some (record { label = label; bound = bound; told = 0 }))) }
        ensures answers_while_fewer_than_the_bound_unless_refused { UnlessRefused result ((w : List Event) → tallies_answer self.new.entries w guard ≡ nat_lt (events_of label w) bound) }
    {
        // a rule of the project: the place is the wrong field's number, from 0
        if guard > 31 {
            return Err(Question::SettingInRange.at(0));
        }
        if label > 255 {
            return Err(Question::SettingInRange.at(1));
        }
        self.entries[usize::from(guard)] = Some(Tally {
            label,
            bound,
            told: 0,
        });
        Ok(())
    }
}

impl GuardHost for Tallies {
    ghost meaning = { λ tallies w guard e v. tallies_answer tallies.entries w guard };

    fn holds(&self, guard: u16, event: Event, _variables: Variables) -> bool
        ensures answers_for_what_was_told { result ≡ tallies_answer self.now.entries [] guard }
        ensures says_no_above_guard_31 { 31 < guard → result ≡ false }
    {
        self.entry(guard)
            .is_some_and(|tally| tally.told < tally.bound)
    }

    fn tell(&mut self, event: Event)
        ensures answers_as_after_the_event { Told (λ w guard e v. tallies_answer self.old.entries w guard) (event ∷ []) (λ w guard e v. tallies_answer self.new.entries w guard) }
        ensures raises_every_entry_with_that_label { self.new.entries ≡ map (heard event) self.old.entries }
    {
        self.hear(event);
    }
}
