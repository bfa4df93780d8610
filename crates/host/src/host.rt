ghost use Rattle.std.specs.Prelude.{◌≡◌, [], ◌∷◌};
ghost use Rattle.host.specs.Meanings.{Meaning, Told};

use crate::variables::Variables;
use event::event::Event;

/// What answers guards. It refuses neither a question nor an event.
pub trait GuardHost {
    /// A yes or no for every list of events still to be told, guard, event and variables.
    ghost meaning: { Self → Meaning };

    /// Whether a guard holds for an event under the variables.
    fn holds(&self, guard: u16, event: Event, variables: Variables) -> bool
        ensures answers_for_what_was_told { result ≡ meaning self.now [] guard event variables };

    /// Tells it that an event was taken.
    fn tell(&mut self, event: Event)
        ensures answers_as_after_the_event { Told (meaning self.old) (event ∷ []) (meaning self.new) };
}
