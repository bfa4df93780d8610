ghost use Rattle.std.specs.Prelude.{◌≡◌, ℕ, ◌+◌, ◌<◌, ◌≤◌, Decides, length, Some};
ghost use Rattle.rules.specs.Trees.{Guards, guard_holds};
ghost use Rattle.rules.specs.Cells.{width, may_leave};
ghost use Rattle.rules.specs.Rules.{Carries, in_set};
ghost use Rattle.rules.specs.Growing.{child_tree};
ghost use Rattle.motions.specs.Framing.{part_at};
ghost use Rattle.diagram.specs.Valued.{values_of};
ghost use Rattle.diagram.specs.Plans.{nodes_of, tree_at};
ghost use Rattle.diagram.specs.Scopes.{binders_at, Suits};
ghost use Rattle.answers.specs.Answering.{Agrees};
ghost use Rattle.search.specs.Searching.{IsArrow, LeadsFrom};

use crate::search::Search;
use answers::carrying::carries;
use diagram::part::Part;
use diagram::scope::Scope;
use notation::arrow::Arrow;
use notation::node::Labels;
use row::row::Row;

/// Whether a set of labels has a label.
pub(crate) fn in_set(label: u16, labels: &Labels) -> bool
    ensures { result ≡ in_set label labels.now.items }
{
    labels.as_slice().contains(&label)
}

impl Search<'_> {
    /// Whether an arrow carries the event under the variables of a scope.
    fn carries(&self, arrow: &Arrow, scope: Scope) -> bool
        ensures { Decides result (Carries arrow.now self.now.answers.now.event scope.variables) }
    {
        carries(arrow, self.answers.event(), scope.variables)
    }

    /// Whether an arrow that carries the event may go by its guard, if it has one.
    fn allowed(&self, number: usize, arrow: &Arrow, scope: Scope) -> bool
        ensures { (g : Guards) → Agrees self.now.diagram.now self.now.answers.now g → IsArrow self.now.diagram.now number arrow.now → Carries arrow.now self.now.answers.now.event scope.variables
            → Suits (values_of self.now.diagram.now.plan.values) (binders_at self.now.diagram.now.binders arrow.now.node) scope → result ≡ guard_holds g arrow.now.guard scope.variables }
    {
        arrow.guard.is_none() || self.answers.of_arrow(number, scope)
    }

    /// Whether an arrow may leave a state with this child: one that waits asks that the child is finished.
    fn may_leave(&self, waits: bool, child: Option<u16>, row: &Row, at: usize) -> bool
        requires is_node { (k : ℕ) → child ≡ Some k → k < length (nodes_of self.now.diagram.now.plan) }
        requires is_inside { at + width (child_tree (tree_at self.now.diagram.now.plan) child) ≤ 48 }
        ensures { result ≡ may_leave waits (child_tree (tree_at self.now.diagram.now.plan) child) (part_at (width (child_tree (tree_at self.now.diagram.now.plan) child)) row.now.cells at) }
    {
        !waits || self.diagram.child_finished(child, row, at)
    }

    /// Whether an arrow leads out of a state of the automaton at a part, where the state's child is this one.
    pub(crate) fn leads(
        &self,
        number: usize,
        arrow: &Arrow,
        part: Part,
        state: u16,
        child: Option<u16>,
        row: &Row,
    ) -> bool
        requires is_node { (k : ℕ) → child ≡ Some k → k < length (nodes_of self.now.diagram.now.plan) }
        requires is_inside { part.at + 1 + width (child_tree (tree_at self.now.diagram.now.plan) child) ≤ 48 }
        ensures { (g : Guards) → Agrees self.now.diagram.now self.now.answers.now g → IsArrow self.now.diagram.now number arrow.now
            → Suits (values_of self.now.diagram.now.plan.values) (binders_at self.now.diagram.now.binders part.node) part.scope
            → Decides result (LeadsFrom self.now.diagram.now self.now.answers.now g part state child row.now arrow.now) }
    {
        arrow.node == part.node
            && arrow.from == state
            && self.carries(arrow, part.scope)
            && self.allowed(number, arrow, part.scope)
            && self.may_leave(arrow.waits, child, row, part.at + 1)
    }
}
