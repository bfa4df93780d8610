ghost use Rattle.std.specs.Prelude.{◌≡◌, ℕ, ◌<◌, false, [], ◌∷◌, set, Some, None, slice_index_or, slice_set};
ghost use Rattle.std.specs.Option.{ok_or};
ghost use Rattle.fault.specs.Asking.{refusal, answer_or, IfRefused, UnlessRefused};
ghost use Rattle.event.specs.declared.event.Event.{Event};
ghost use Rattle.host.specs.declared.variables.Variables.{Variables};
ghost use Rattle.host.specs.Meanings.{Told};
ghost use Rattle.host.specs.Limiting.{operand_numbered, comparison_numbered, operand_of, compares, limit_answer, limits_answer, limit_asks, limit_numbered};

use crate::host::GuardHost;
use crate::limit::{Comparison, Limit, Operand, UnknownNumber};
use crate::limits::Limits;
use crate::variables::Variables;
use event::event::Event;
use fault::fault::{Fault, Question};

impl TryFrom<u16> for Operand {
    type Error = UnknownNumber;

    ghost try_from_gives = { λ number r. r ≡ ok_or (operand_numbered number) (record { 0 = number }) };

    fn try_from(number: u16) -> Result<Operand, UnknownNumber> {
        match number {
            1 => Ok(Operand::Outer),
            2 => Ok(Operand::Inner),
            3 => Ok(Operand::First),
            4 => Ok(Operand::Second),
            _ => Err(UnknownNumber(number)),
        }
    }
}

impl TryFrom<u16> for Comparison {
    type Error = UnknownNumber;

    ghost try_from_gives = { λ number r. r ≡ ok_or (comparison_numbered number) (record { 0 = number }) };

    fn try_from(number: u16) -> Result<Comparison, UnknownNumber> {
        match number {
            0 => Ok(Comparison::Below),
            1 => Ok(Comparison::Equal),
            2 => Ok(Comparison::Above),
            _ => Err(UnknownNumber(number)),
        }
    }
}

impl Operand {
    /// What it names, if that is there.
    fn of(self, event: &Event, variables: Variables) -> Option<u16>
        ensures { result ≡ operand_of self event.now variables }
    {
        match self {
            Operand::Outer => variables.outer,
            Operand::Inner => variables.inner,
            Operand::First => event.first_argument(),
            Operand::Second => event.second_argument(),
        }
    }
}

impl Comparison {
    fn compares(self, value: u16, constant: u16) -> bool
        ensures { result ≡ compares self value constant }
    {
        // `value.cmp(&constant)` would give an `Ordering` to be matched against `self` in as many arms
        match self {
            Comparison::Below => value < constant,
            Comparison::Equal => value == constant,
            Comparison::Above => value > constant,
        }
    }
}

impl Limit {
    /// Whether its operand is there and compares so.
    fn holds(self, event: &Event, variables: Variables) -> bool
        ensures { result ≡ limit_answer (Some self) event.now variables }
    {
        self.operand
            .of(event, variables)
            .is_some_and(|value| self.comparison.compares(value, self.constant))
    }
}

impl Limits {
    /// Sets the limit of a guard, in place of the one it had. An operand is given by its number (1 outer variable, 2 inner variable,
    /// 3 first argument, 4 second argument), and so is a comparison (0 below, 1 equal, 2 above).
    // a rule of the project: the fields of a setting are numbers, and a refusal says which one was out of range
    pub fn set(
        &mut self,
        guard: u16,
        operand: u16,
        comparison: u16,
        constant: u16,
    ) -> Result<(), Fault>
        ensures refuses_at_the_first_wrong_field { result ≡ answer_or (refusal (limit_asks guard operand comparison constant)) tt }
        ensures changes_nothing_if_refused { IfRefused result (self.new ≡ self.old) }
        ensures replaces_one_entry_unless_refused { UnlessRefused result (self.new.entries ≡ slice_set self.old.entries guard (limit_numbered operand comparison constant)) }
        ensures answers_by_the_limit_unless_refused { UnlessRefused result ((e : Event) (v : Variables) → limits_answer self.new.entries guard e v ≡ limit_answer (limit_numbered operand comparison constant) e v) }
    {
        let question = Question::SettingInRange;
        // asked first and stored last, with the other fields between, so this is no one call of `Guards`; a tally likewise
        if guard > 31 {
            return Err(question.at(0));
        }
        let operand = Operand::try_from(operand).map_err(|_| question.at(1))?;
        let comparison = Comparison::try_from(comparison).map_err(|_| question.at(2))?;
        self.entries[usize::from(guard)] = Some(Limit {
            operand,
            comparison,
            constant,
        });
        Ok(())
    }
}

impl GuardHost for Limits {
    ghost meaning = { λ limits w guard e v. limits_answer limits.entries guard e v };

    fn holds(&self, guard: u16, event: Event, variables: Variables) -> bool
        ensures answers_for_what_was_told { result ≡ limits_answer self.now.entries guard event variables }
        ensures says_no_above_guard_31 { 31 < guard → result ≡ false }
    {
        self.entry(guard)
            .is_some_and(|limit| limit.holds(&event, variables))
    }

    fn tell(&mut self, _event: Event)
        ensures answers_as_after_the_event { Told (λ w guard e v. limits_answer self.old.entries guard e v) (_event ∷ []) (λ w guard e v. limits_answer self.new.entries guard e v) }
        ensures changes_nothing { self.new ≡ self.old }
    {}
}
