ghost use Rattle.std.specs.Prelude.{◌≡◌, ◌≤◌};
ghost use Rattle.rules.specs.Trees.{argument_of};
ghost use Rattle.rules.specs.Candidates.{event_with};
ghost use Rattle.diagram.specs.Carrying.{candidate_at, outer_positions_at, inner_positions_at};

use crate::diagram::Diagram;
use event::event::Event;
use host::variables::Variables;
use notation::arrow::Argument;

/// The value that an arrow's argument stands for, absent if it stands for none.
pub fn value_of(argument: Argument, variables: Variables) -> Option<u16>
    ensures is_the_value { result ≡ argument_of argument variables }
{
    match argument {
        Argument::Absent => None,
        Argument::Constant(value) => Some(value),
        Argument::Outer => variables.outer,
        Argument::Inner => variables.inner,
    }
}

/// The event of a label with these arguments; a second one needs a first.
fn event_with(label: u16, first: Option<u16>, second: Option<u16>) -> Event
    ensures { result ≡ event_with label first second }
{
    match (first, second) {
        (None, _) => Event {
            label,
            count: 0,
            first: 0,
            second: 0,
        },
        (Some(first), None) => Event {
            label,
            count: 1,
            first,
            second: 0,
        },
        (Some(first), Some(second)) => Event {
            label,
            count: 2,
            first,
            second,
        },
    }
}

impl Diagram {
    /// How many positions there are for the outer variable at an arrow; none where there is no such arrow.
    pub fn outer_positions(&self, arrow: usize) -> usize
        ensures tells_how_many { result ≡ outer_positions_at self.now arrow }
        ensures is_17_at_most { result ≤ 17 }
    {
        let Some(arrow) = self.procedure().arrow(arrow) else {
            return 0;
        };
        self.positions(self.binders(usize::from(arrow.node)).outer)
    }

    /// The same for the inner one.
    pub fn inner_positions(&self, arrow: usize) -> usize
        ensures tells_how_many { result ≡ inner_positions_at self.now arrow }
        ensures is_17_at_most { result ≤ 17 }
    {
        let Some(arrow) = self.procedure().arrow(arrow) else {
            return 0;
        };
        self.positions(self.binders(usize::from(arrow.node)).inner)
    }

    /// The event that an arrow carries under the variables at two positions, if there is such an arrow and they are positions of values.
    /// Each event that some arrow can carry comes at some arrow and some of its positions.
    pub fn candidate(&self, arrow: usize, outer: usize, inner: usize) -> Option<Event>
        ensures is_the_arrows_event { result ≡ candidate_at self.now arrow outer inner }
    {
        let arrow = self.procedure().arrow(arrow)?;
        let variables = self.variables(self.binders(usize::from(arrow.node)), outer, inner)?;
        let first = value_of(arrow.first, variables);
        let second = value_of(arrow.second, variables);
        Some(event_with(arrow.label, first, second))
    }
}
