ghost use Rattle.std.specs.Prelude.{◌≡◌, ℕ, ◌+◌, ◌-◌, ◌<◌, ◌≤◌, length, Some};
ghost use Rattle.motions.specs.Framing.{part_at, framed};
ghost use Rattle.rules.specs.Cells.{width, tagged, initial, times, copies};
ghost use Rattle.rules.specs.Growing.{child_tree};
ghost use Rattle.diagram.specs.Plans.{nodes_of, tree_at};

use crate::diagram::Diagram;
use notation::node::Node;
use row::row::Row;

/// The row with a tag at `at`, then the `keep` cells that are there, and 0 in the rest of the `size` cells.
fn tagged(row: Row, at: usize, tag: u16, keep: usize, size: usize) -> Row
    requires is_inside { (keep < size) × (at + size ≤ 48) }
    ensures { result.cells ≡ framed row.cells at size (tagged (size - 1) tag (part_at keep row.cells (at + 1))) }
{
    let mut next = row;
    next.cells[at] = tag;
    next.cells[at + 1 + keep..at + size].fill(0);
    next
}

impl Diagram {
    /// How many cells a child takes; an elementary state takes none.
    pub fn child_width(&self, child: Option<u16>) -> usize
        requires is_node { (k : ℕ) → child ≡ Some k → k < length (nodes_of self.now.plan) }
        ensures is_the_width { result ≡ width (child_tree (tree_at self.now.plan) child) }
    {
        child.map_or(0, |child| self.width(usize::from(child)))
    }

    /// The row in which the `size` cells at `at` are a tag, then the initial cells of a child, and then 0.
    #[cycle(beginnings)]
    pub fn enter(&self, tag: u16, child: Option<u16>, row: Row, at: usize, size: usize) -> Row
        requires is_node { (k : ℕ) → child ≡ Some k → k < length (nodes_of self.now.plan) }
        requires is_inside { (width (child_tree (tree_at self.now.plan) child) < size) × (at + size ≤ 48) }
        ensures enters { result.cells ≡ framed row.cells at size (tagged (size - 1) tag (initial (child_tree (tree_at self.now.plan) child))) }
    {
        let clear = tagged(row, at, tag, 0, size);
        match child {
            None => clear,
            Some(child) => self.begin(usize::from(child), clear, at + 1),
        }
    }

    /// The row in which the `size` cells at `at` are a tag, then the cells of a child as they are, and then 0.
    pub fn stay(&self, tag: u16, child: Option<u16>, row: Row, at: usize, size: usize) -> Row
        requires is_node { (k : ℕ) → child ≡ Some k → k < length (nodes_of self.now.plan) }
        requires is_inside { (width (child_tree (tree_at self.now.plan) child) < size) × (at + size ≤ 48) }
        ensures stays { result.cells ≡ framed row.cells at size (tagged (size - 1) tag (part_at (width (child_tree (tree_at self.now.plan) child)) row.cells (at + 1))) }
    {
        tagged(row, at, tag, self.child_width(child), size)
    }

    /// The row with the cells that a node begins with at `at`.
    #[cycle(beginnings)]
    pub fn begin(&self, i: usize, row: Row, at: usize) -> Row
        requires is_node { i < length (nodes_of self.now.plan) }
        requires is_inside { at + width (tree_at self.now.plan i) ≤ 48 }
        ensures begins { result.cells ≡ framed row.cells at (width (tree_at self.now.plan i)) (initial (tree_at self.now.plan i)) }
    {
        match self.node(i) {
            Node::Automaton { states } => {
                let child = states.state(states.start).child;
                self.enter(states.start, child, row, at, self.width(i))
            }
            Node::Sequence { first, .. } => self.enter(0, Some(first), row, at, self.width(i)),
            Node::Closure { .. }
            | Node::Guard { .. }
            | Node::Choice { .. }
            | Node::QuantifiedChoice { .. } => tagged(row, at, 0, 0, self.width(i)),
            Node::Synchronisation { left, right, .. } => {
                let begun = self.begin(usize::from(left), row, at);
                self.begin(
                    usize::from(right),
                    begun,
                    at + self.width(usize::from(left)),
                )
            }
            Node::QuantifiedSynchronisation { over, body, .. } => {
                self.begin_each(usize::from(body), self.values(over), row, at)
            }
        }
    }

    /// The same for each of some values.
    #[cycle(beginnings)]
    fn begin_each(&self, body: usize, values: &[u16], row: Row, at: usize) -> Row
        requires is_node { body < length (nodes_of self.now.plan) }
        requires is_inside { at + times values.now (width (tree_at self.now.plan body)) ≤ 48 }
        ensures { result.cells ≡ framed row.cells at (times values.now (width (tree_at self.now.plan body))) (copies values.now (initial (tree_at self.now.plan body))) }
    {
        match values {
            [] => row,
            [_, others @ ..] => {
                let begun = self.begin(body, row, at);
                self.begin_each(body, others, begun, at + self.width(body))
            }
        }
    }
}
