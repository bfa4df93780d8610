ghost use Rattle.std.specs.Prelude.{◌≡◌, true, slice_index_or};
ghost use Rattle.notation.specs.Parts.{states_of, blank_node};
ghost use Rattle.record.specs.declared.entry.Entry.TheVariants.{Node as of_node, Arrow as of-arrow};
ghost use Rattle.procedure.specs.Drawings.{nothing_drawn};
ghost use Rattle.procedure.specs.Reading.{Admitted};
ghost use Rattle.procedure.specs.Scopes.{arrow_placed};
ghost use Rattle.procedure.specs.Sound.{node_sound, arrow_sound, entry_sound};

use crate::claim::Claims;
use crate::draft::Draft;
use fault::fault::{Fault, Question};
use notation::arrow::{Argument, Arrow};
use notation::node::Node;
use notation::table::Table;
use record::entry::Entry;

impl Draft {
    /// A draft that holds nothing.
    pub(crate) fn empty() -> Draft
        ensures { result ≡ nothing_drawn }
    {
        let arrow = Arrow {
            node: 0,
            from: 0,
            to: 0,
            label: 0,
            waits: false,
            guard: None,
            first: Argument::Absent,
            second: Argument::Absent,
        };
        Draft {
            nodes: Table::new(Node::Closure { body: 0 }),
            arrows: Table::new(arrow),
            parents: [None; 64],
        }
    }

    /// Questions 5 and 6 of a node after the others, as far as they are still open.
    fn admit_node(&mut self, node: Node, place: usize) -> Result<(), Fault>
        requires { node_sound node ≡ true }
        ensures { Admitted self.old place (of_node node) result self.new }
    {
        if self.nodes.is_full() {
            return Err(Question::FieldsInRange.at(place));
        }
        let mut claims = Claims {
            parents: self.parents,
            // at most 64, so nothing is cut off
            node: self.nodes.len() as u16,
            place,
        };
        claims.claim_children(&node)?;
        self.parents = claims.parents;
        self.nodes.push(node);
        Ok(())
    }

    /// The number of states of a node read so far, 0 where it is no automaton or not there.
    fn states_of(&self, node: u16) -> u16
        ensures { result ≡ states_of (slice_index_or self.now.nodes node blank_node) }
    {
        self.nodes
            .as_slice()
            .get(usize::from(node))
            .map_or(0, |node| node.states())
    }

    /// Question 7: the arrow names an automaton read so far, and two states of it.
    fn places(&self, arrow: &Arrow) -> bool
        ensures { result ≡ arrow_placed self.now.nodes arrow.now }
    {
        let states = self.states_of(arrow.node);
        arrow.from < states && arrow.to < states
    }

    /// Questions 5 and 7 of an arrow after the others, as far as they are still open.
    fn admit_arrow(&mut self, arrow: Arrow, place: usize) -> Result<(), Fault>
        requires { arrow_sound arrow ≡ true }
        ensures { Admitted self.old place (of-arrow arrow) result self.new }
    {
        if self.arrows.is_full() {
            return Err(Question::FieldsInRange.at(place));
        }
        if !self.places(&arrow) {
            return Err(Question::ArrowPlaced.at(place));
        }
        self.arrows.push(arrow);
        Ok(())
    }

    /// What a record tells joins the draft, or is refused.
    pub(crate) fn admit(&mut self, entry: Entry, place: usize) -> Result<(), Fault>
        requires { entry_sound entry ≡ true }
        ensures { Admitted self.old place entry result self.new }
    {
        match entry {
            Entry::Node(node) => self.admit_node(node, place),
            Entry::Arrow(arrow) => self.admit_arrow(arrow, place),
        }
    }
}
