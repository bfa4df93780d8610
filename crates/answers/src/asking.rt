ghost use Rattle.std.specs.Prelude.{◌≡◌, ℕ, ◌≤◌, true, [], length, Some};
ghost use Rattle.std.specs.List.{slice_get};
ghost use Rattle.host.specs.declared.variables.Variables.{Variables};
ghost use Rattle.rules.specs.Chains.{answers_after};
ghost use Rattle.diagram.specs.Plans.{nodes_of, arrows_in};
ghost use Rattle.answers.specs.Answering.{rows_of, Matters, IsRow, AreRows, AreOfNode, AreOfArrow, Agrees, Enough};

use crate::answers::{Answers, Entries, Replies};
use crate::carrying::carries;
use crate::place::Place;
use diagram::diagram::Diagram;
use event::event::Event;
use host::host::GuardHost;
use host::variables::Variables;
use notation::node::Node;

impl Place {
    /// Whether the answer to the event under these variables matters here.
    fn matters(&self, event: Event, variables: Variables) -> bool
        ensures { Matters self.now.arrow event variables → result ≡ true }
    {
        match self.arrow {
            None => true,
            Some(arrow) => carries(&arrow, event, variables),
        }
    }

    /// What the guard answers under variables; no where there are none, or where it does not matter.
    fn answer<H: GuardHost>(&self, host: &H, event: Event, variables: Option<Variables>) -> bool
        ensures { (v : Variables) → variables ≡ Some v → Matters self.now.arrow event v → result ≡ answers_after (H.meaning host.now) [] event self.now.guard v }
    {
        variables.is_some_and(|variables| {
            self.matters(event, variables) && host.holds(self.guard, event, variables)
        })
    }

    /// The replies at each inner position, where the outer one is given.
    fn row<H: GuardHost>(&self, diagram: &Diagram, host: &H, event: Event, outer: usize) -> u32
        ensures { IsRow diagram.now (answers_after (H.meaning host.now) [] event) event self.now outer result }
    {
        let mut row = 0;
        for inner in 0..diagram.positions(self.binders.inner) {
            if self.answer(host, event, diagram.variables(self.binders, outer, inner)) {
                row |= 1u32 << inner;
            }
        }
        row
    }

    /// The replies at each pair of positions.
    fn replies<H: GuardHost>(&self, diagram: &Diagram, host: &H, event: Event) -> Replies
        ensures { AreRows diagram.now (answers_after (H.meaning host.now) [] event) event self.now result.rows }
    {
        let mut rows = [0; 17];
        for outer in 0..diagram.positions(self.binders.outer) {
            rows[outer] = self.row(diagram, host, event, outer);
        }
        Replies { rows }
    }
}

/// Asks the guards of the nodes.
fn ask_nodes<H: GuardHost>(nodes: &mut [Replies], diagram: &Diagram, host: &H, event: Event)
    requires are_enough { length (nodes_of diagram.now.plan) ≤ length nodes.old }
    ensures { (i : ℕ) → AreOfNode diagram.now (answers_after (H.meaning host.now) [] event) event i (rows_of (slice_get nodes.new i)) }
{
    for (i, node) in diagram.procedure().nodes().iter().enumerate() {
        if let Node::Guard { guard, .. } = node {
            let place = Place {
                guard: *guard,
                binders: diagram.binders(i),
                arrow: None,
            };
            nodes[i] = place.replies(diagram, host, event);
        }
    }
}

/// Asks the guards of the arrows; none of those with another label carries the event.
fn ask_arrows<H: GuardHost>(arrows: &mut [Replies], diagram: &Diagram, host: &H, event: Event)
    requires are_enough { length (arrows_in diagram.now.plan) ≤ length arrows.old }
    ensures { (k : ℕ) → AreOfArrow diagram.now (answers_after (H.meaning host.now) [] event) event k (rows_of (slice_get arrows.new k)) }
{
    for (k, arrow) in diagram.procedure().arrows().iter().enumerate() {
        match arrow.guard {
            Some(guard) if arrow.label == event.label => {
                let place = Place {
                    guard,
                    binders: diagram.binders(usize::from(arrow.node)),
                    arrow: Some(*arrow),
                };
                arrows[k] = place.replies(diagram, host, event);
            }
            _ => {}
        }
    }
}

impl<const N: usize, const A: usize> Entries<N, A> {
    /// Asks a host, which is told nothing, for every guard place and all variables that can be in scope there, whatever the entries held.
    pub fn ask<H: GuardHost>(&mut self, diagram: &Diagram, host: &H, event: Event) -> Answers<'_>
        requires are_enough { Enough N A diagram.now }
        ensures answers_to_the_event { result.event ≡ event }
        ensures agrees_with_the_host { Agrees diagram.now result (answers_after (H.meaning host.now) [] event) }
    {
        ask_nodes(&mut self.nodes, diagram, host, event);
        ask_arrows(&mut self.arrows, diagram, host, event);
        self.to(event)
    }
}
