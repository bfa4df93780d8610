ghost use Rattle.std.specs.Prelude.{◌≡◌, ℕ, false, List, [], ◌∷◌};
ghost use Rattle.event.specs.declared.event.Event.{Event};
ghost use Rattle.host.specs.declared.variables.Variables.{Variables};
ghost use Rattle.host.specs.Meanings.{Told};
ghost use Rattle.script.specs.Hosts.{host_meaning, kind_of, NoneSet, limit_answered, SetsLimit, tally_answered, SetsTally, Hears, with_limit, with_tally, Means, IfSet, UnlessSet};
ghost use Rattle.host.specs.Limiting.{limit_numbered};

use crate::host_kind::HostKind;
use crate::hosting::Host;
use crate::wrong::Wrong;
use event::event::Event;
use fault::fault::Fault;
use host::guards::Guards;
use host::host::GuardHost;
use host::variables::Variables;

impl Host {
    /// A host of a kind, which says no to every guard until one is set.
    pub fn of(kind: HostKind) -> Host
        ensures is_of_that_kind { kind_of result ≡ kind }
        ensures has_none_set { NoneSet result }
        ensures says_no { (w : List Event) (guard : ℕ) (e : Event) (v : Variables) → host_meaning result w guard e v ≡ false }
    {
        match kind {
            HostKind::Limits => Host::Limits(Guards::new()),
            HostKind::Tallies => Host::Tallies(Guards::new()),
        }
    }

    /// Sets the limit of a guard, as the limits set it. A host by tallies has none, and stays as it was.
    pub fn set_limit(
        &mut self,
        guard: u16,
        operand: u16,
        comparison: u16,
        constant: u16,
    ) -> Result<Result<(), Fault>, Wrong>
        ensures answers_as_the_limits_do { result ≡ limit_answered self.old guard operand comparison constant }
        ensures sets_as_the_limits_do { SetsLimit self.old guard operand comparison constant self.new }
        ensures means_the_limit_if_set { IfSet result (Means (with_limit guard (limit_numbered operand comparison constant) (host_meaning self.old)) (host_meaning self.new)) }
        ensures stays_of_its_kind { kind_of self.new ≡ kind_of self.old }
        ensures changes_nothing_unless_set { UnlessSet result (self.new ≡ self.old) }
    {
        match self {
            Host::Limits(limits) => Ok(limits.set(guard, operand, comparison, constant)),
            Host::Tallies(_) => Err(Wrong::NoLimits),
        }
    }

    /// Sets the tally of a guard, as the tallies set it. A host by limits has none, and stays as it was.
    pub fn set_tally(
        &mut self,
        guard: u16,
        label: u16,
        bound: u16,
    ) -> Result<Result<(), Fault>, Wrong>
        ensures answers_as_the_tallies_do { result ≡ tally_answered self.old guard label bound }
        ensures sets_as_the_tallies_do { SetsTally self.old guard label bound self.new }
        ensures means_the_tally_if_set { IfSet result (Means (with_tally guard label bound (host_meaning self.old)) (host_meaning self.new)) }
        ensures stays_of_its_kind { kind_of self.new ≡ kind_of self.old }
        ensures changes_nothing_unless_set { UnlessSet result (self.new ≡ self.old) }
    {
        match self {
            Host::Limits(_) => Err(Wrong::NoTallies),
            Host::Tallies(tallies) => Ok(tallies.set(guard, label, bound)),
        }
    }
}

impl GuardHost for Host {
    ghost meaning = { host_meaning };

    fn holds(&self, guard: u16, event: Event, variables: Variables) -> bool {
        match self {
            Host::Limits(limits) => limits.holds(guard, event, variables),
            Host::Tallies(tallies) => tallies.holds(guard, event, variables),
        }
    }

    fn tell(&mut self, event: Event)
        ensures answers_as_after_the_event { Told (host_meaning self.old) (event ∷ []) (host_meaning self.new) }
        ensures hears_as_its_kind_does { Hears self.old event self.new }
    {
        match self {
            Host::Limits(limits) => limits.tell(event),
            Host::Tallies(tallies) => tallies.tell(event),
        }
    }
}
