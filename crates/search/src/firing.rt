ghost use Rattle.std.specs.Prelude.{◌≡◌, ◌<◌, length};
ghost use Rattle.notation.specs.declared.node.Node.TheVariants.{Automaton};
ghost use Rattle.rules.specs.Trees.{Guards};
ghost use Rattle.motions.specs.Collecting.{Stays, Added};
ghost use Rattle.diagram.specs.Plans.{nodes_of, arrows_in};
ghost use Rattle.diagram.specs.Parts.{IsPartOf, InPlace};
ghost use Rattle.answers.specs.Answering.{Agrees};
ghost use Rattle.search.specs.Searching.{IsArrow, LookedAt, RowsOfArrow, RowsOfArrows};

use crate::overflow::Overflow;
use crate::search::Search;
use diagram::part::Part;
use notation::arrow::Arrow;
use notation::node::States;
use ordered::list::Ordered;
use row::row::Row;

/// Puts a row into a list.
pub(crate) fn put(row: Row, out: &mut Ordered<Row>) -> Result<(), Overflow>
    ensures stays { Stays out.old out.new }
    ensures adds { Added (λ y. y ≡ row) out.old out.new result }
{
    if out.insert(row) {
        return Err(Overflow);
    }
    Ok(())
}

impl Search<'_> {
    /// If an arrow leads out of the automaton's state, its target begins initially (aut-1).
    pub(crate) fn follow(
        &self,
        number: usize,
        arrow: &Arrow,
        part: Part,
        states: &States,
        row: &Row,
        out: &mut Ordered<Row>,
    ) -> Result<(), Overflow>
        requires is_in_place { InPlace self.now.diagram.now part }
        requires is_this_node { IsPartOf self.now.diagram.now (Automaton states.now) part }
        ensures stays { Stays out.old out.new }
        ensures adds { (g : Guards) → Agrees self.now.diagram.now self.now.answers.now g → IsArrow self.now.diagram.now number arrow.now → Added (RowsOfArrow self.now part states.now arrow.now row.now g) out.old out.new result }
    {
        let state = row.cells[part.at];
        let child = states.state(state).child;
        if !self.leads(number, arrow, part, state, child, row) {
            return Ok(());
        }
        let size = self.diagram.width(usize::from(part.node));
        let target = states.state(arrow.to).child;
        put(
            self.diagram.enter(arrow.to, target, *row, part.at, size),
            out,
        )
    }

    /// The numbers of the arrows that are looked at for a node: its own or, where these are fewer, those with the event's label.
    fn looked_at(&self, node: u16) -> &[u8]
        requires is_node { node < length (nodes_of self.now.diagram.now.plan) }
        ensures { LookedAt (arrows_in self.now.diagram.now.plan) node self.now.answers.now.event.label result.now }
    {
        let own = self.diagram.own_arrows(usize::from(node));
        let label = usize::from(self.answers.event().label);
        if label > 255 {
            return own;
        }
        let labelled = self.diagram.labelled_arrows(label);
        if labelled.len() < own.len() {
            labelled
        } else {
            own
        }
    }

    /// The same for every arrow of the file. Only the automaton's own lead out of it, and only by the event's label, so the others are not looked at.
    pub(crate) fn fire(
        &self,
        part: Part,
        states: &States,
        row: &Row,
        out: &mut Ordered<Row>,
    ) -> Result<(), Overflow>
        requires is_in_place { InPlace self.now.diagram.now part }
        requires is_this_node { IsPartOf self.now.diagram.now (Automaton states.now) part }
        ensures stays { Stays out.old out.new }
        ensures adds { (g : Guards) → Agrees self.now.diagram.now self.now.answers.now g → Added (RowsOfArrows self.now part states.now row.now g) out.old out.new result }
    {
        let arrows = self.diagram.procedure().arrows();
        let numbers = self.looked_at(part.node);
        for short in numbers {
            let number = usize::from(*short);
            let arrow = &arrows[number];
            self.follow(number, arrow, part, states, row, out)?;
        }
        Ok(())
    }
}
