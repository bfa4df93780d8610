ghost use Rattle.std.specs.Prelude.{Decides};
ghost use Rattle.rules.specs.Rules.{Carries};

use diagram::candidates::value_of;
use event::event::Event;
use host::variables::Variables;
use notation::arrow::Arrow;

/// Whether an arrow carries an event under variables.
pub fn carries(arrow: &Arrow, event: Event, variables: Variables) -> bool
    ensures says_whether_it_carries { Decides result (Carries arrow.now event variables) }
{
    arrow.label == event.label
        && value_of(arrow.first, variables) == event.first_argument()
        && value_of(arrow.second, variables) == event.second_argument()
}
