ghost use Rattle.std.specs.Prelude.{◌≡◌, ℕ, ◌<◌, length, Some, MatchResult};
ghost use mathlib.Core.List.{Memᴰ};
ghost use Rattle.notation.specs.Parts.{children_of};
ghost use Rattle.rules.specs.Cells.{width, child_room};
ghost use Rattle.rules.specs.Growing.{state_of, child_tree};
ghost use Rattle.diagram.specs.Plans.{nodes_of, tree_at, within_row, Measured, LowestWide};
ghost use Rattle.diagram.specs.Scopes.{binders_at, Placed, Rooted};

use crate::binders::Binders;
use crate::diagram::Diagram;
use crate::keyed_arrows::Key;
use crate::plan::Plan;
use notation::node::{Node, States};

/// How many cells a row has.
const CELLS: usize = 48;

/// A width, if it is within a row.
fn within_row(width: usize) -> Option<usize>
    ensures { result ≡ within_row width }
{
    (width <= CELLS).then_some(width)
}

impl Plan {
    /// The width of a node, if it is within a row.
    #[cycle(widths)]
    fn width(&self, i: usize) -> Option<usize>
        requires is_node { i < length (nodes_of self.now) }
        ensures { result ≡ within_row (width (tree_at self.now i)) }
    {
        match self.node(i) {
            Node::Automaton { states } => within_row(self.child_room(&states, i)? + 1),
            Node::Sequence {
                first: left,
                second: right,
            }
            | Node::Choice { left, right } => {
                within_row(
                    self.width(usize::from(left))?
                        .max(self.width(usize::from(right))?)
                        + 1,
                )
            }
            Node::Closure { body } | Node::Guard { body, .. } => {
                within_row(self.width(usize::from(body))? + 1)
            }
            Node::Synchronisation { left, right, .. } => {
                within_row(self.width(usize::from(left))? + self.width(usize::from(right))?)
            }
            Node::QuantifiedChoice { over, body } => {
                // without a value no body is there, however wide it would be
                if self.values.of(over).is_empty() {
                    return Some(1);
                }
                within_row(self.width(usize::from(body))? + 1)
            }
            Node::QuantifiedSynchronisation { over, body, .. } => {
                let instances = self.values.of(over).len();
                // nor an instance of this one
                if instances == 0 {
                    return Some(0);
                }
                within_row(self.width(usize::from(body))? * instances)
            }
        }
    }

    /// The same of a state's child, which an elementary state has not.
    #[cycle(widths)]
    fn child_width(&self, child: Option<u16>, i: usize) -> Option<usize>
        requires is_node { i < length (nodes_of self.now) }
        requires is_below { (k : ℕ) → child ≡ Some k → k < i }
        ensures { result ≡ within_row (width (child_tree (tree_at self.now) child)) }
    {
        match child {
            None => Some(0),
            Some(child) => self.width(usize::from(child)),
        }
    }

    /// The width of the widest child of node i's states, if it is within a row.
    #[cycle(widths)]
    fn child_room(&self, states: &States, i: usize) -> Option<usize>
        requires is_node { i < length (nodes_of self.now) }
        requires is_below { (q k : ℕ) → (state_of states.now q).child ≡ Some k → k < i }
        ensures { result ≡ within_row (child_room (length states.now.table.items) (λ q. child_tree (tree_at self.now) (state_of states.now q).child)) }
    {
        let mut widest = 0;
        for state in states.table.as_slice() {
            widest = widest.max(self.child_width(state.child, i)?);
        }
        Some(widest)
    }

    /// The width of each node, or the lowest node that is wider than a row.
    fn widths(&self) -> Result<[usize; 64], usize>
        ensures { MatchResult result (λ widths. Measured self.now widths) (λ i. LowestWide self.now i) }
    {
        let mut widths = [0; 64];
        for i in 0..self.procedure.node_count() {
            widths[i] = self.width(i).ok_or(i)?;
        }
        Ok(widths)
    }

    /// The binders above each node. From the root down, so that those above a node are known before its children's.
    fn binders(&self) -> [Binders; 64]
        ensures { Placed self.now result × Rooted self.now result }
    {
        let mut binders = [Binders::NONE; 64];
        for i in (0..self.procedure.node_count()).rev() {
            let node = self.node(i);
            let above = binders[i].under(&node);
            place(&mut binders, &node, above);
        }
        binders
    }
}

/// Puts down what is above the children of a node.
fn place(binders: &mut [Binders; 64], node: &Node, above: Binders)
    requires are_inside { (k : ℕ) → Memᴰ k (children_of node.now) → k < 64 }
    ensures puts { (k : ℕ) → Memᴰ k (children_of node.now) → binders_at binders.new k ≡ above }
    ensures leaves { (k : ℕ) → (Memᴰ k (children_of node.now) → ⊥) → binders_at binders.new k ≡ binders_at binders.old k }
{
    let children = node.children();
    for child in children.as_slice() {
        binders[usize::from(*child)] = above;
    }
}

impl Diagram {
    /// The diagram of a plan, or its lowest node that is wider than a row.
    pub fn of(plan: Plan) -> Result<Diagram, usize>
        ensures keeps_the_plan_or_tells_the_lowest_wide_node { MatchResult result (λ d. d.plan ≡ plan) (λ i. LowestWide plan i) }
    {
        let widths = plan.widths()?;
        let binders = plan.binders();
        let own = plan.arrows_by(Key::Node);
        let labelled = plan.arrows_by(Key::Label);
        Ok(Diagram {
            plan,
            widths,
            binders,
            own,
            labelled,
        })
    }
}
