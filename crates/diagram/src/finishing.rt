ghost use Rattle.std.specs.Prelude.{◌≡◌, ℕ, ◌+◌, ◌<◌, ◌≤◌, length, replicate, Some};
ghost use Rattle.motions.specs.Framing.{part_at, framed};
ghost use Rattle.rules.specs.Cells.{width, initial, finished, times, all_instances};
ghost use Rattle.rules.specs.Growing.{child_tree};
ghost use Rattle.diagram.specs.Plans.{nodes_of, tree_at};

use crate::diagram::Diagram;
use notation::node::{Mark, Node};
use row::row::Row;

impl Diagram {
    /// The row that has a node's initial cells at 0, and 0 behind them.
    pub fn begun(&self, i: usize) -> Row
        requires is_node { i < length (nodes_of self.now.plan) }
        ensures begins_in_an_empty_row { result.cells ≡ framed (replicate 48 0) 0 (width (tree_at self.now.plan i)) (initial (tree_at self.now.plan i)) }
        ensures begins { part_at (width (tree_at self.now.plan i)) result.cells 0 ≡ initial (tree_at self.now.plan i) }
    {
        self.begin(i, Row { cells: [0; 48] }, 0)
    }

    /// Whether the cells of a node at `at` are finished.
    #[cycle(finishing)]
    pub fn finished(&self, i: usize, row: &Row, at: usize) -> bool
        requires is_node { i < length (nodes_of self.now.plan) }
        requires is_inside { at + width (tree_at self.now.plan i) ≤ 48 }
        ensures says_whether_finished { result ≡ finished (tree_at self.now.plan i) (part_at (width (tree_at self.now.plan i)) row.now.cells at) }
    {
        match self.node(i) {
            Node::Automaton { states } => {
                let state = states.state(row.cells[at]);
                match state.mark {
                    Mark::Unmarked => false,
                    Mark::Shallow => true,
                    Mark::Deep => self.child_finished(state.child, row, at + 1),
                }
            }
            Node::Sequence { first, second } => {
                if row.cells[at] == 0 {
                    self.finished(usize::from(first), row, at + 1)
                        && self.begins_finished(usize::from(second))
                } else {
                    self.finished(usize::from(second), row, at + 1)
                }
            }
            Node::Closure { body } => row.cells[at] == 0
                || self.finished(usize::from(body), row, at + 1),
            Node::Guard { body, .. } => {
                if row.cells[at] == 0 {
                    self.begins_finished(usize::from(body))
                } else {
                    self.finished(usize::from(body), row, at + 1)
                }
            }
            Node::Choice { left, right } => match row.cells[at] {
                0 => self.begins_finished(usize::from(left))
                    || self.begins_finished(usize::from(right)),
                1 => self.finished(usize::from(left), row, at + 1),
                _ => self.finished(usize::from(right), row, at + 1),
            },
            Node::Synchronisation { left, right, .. } => {
                self.finished(usize::from(left), row, at)
                    && self.finished(usize::from(right), row, at + self.width(usize::from(left)))
            }
            Node::QuantifiedChoice { over, body } => {
                if row.cells[at] == 0 {
                    !self.values(over).is_empty() && self.begins_finished(usize::from(body))
                } else if self.values(over).is_empty() {
                    // without a value there is no room for the body, so its cells are 0
                    self.finished(usize::from(body), &Row { cells: [0; 48] }, 0)
                } else {
                    self.finished(usize::from(body), row, at + 1)
                }
            }
            Node::QuantifiedSynchronisation { over, body, .. } => {
                self.each_finished(usize::from(body), self.values(over), row, at)
            }
        }
    }

    /// Whether a child is finished; an elementary state is.
    #[cycle(finishing)]
    pub fn child_finished(&self, child: Option<u16>, row: &Row, at: usize) -> bool
        requires is_node { (k : ℕ) → child ≡ Some k → k < length (nodes_of self.now.plan) }
        requires is_inside { at + width (child_tree (tree_at self.now.plan) child) ≤ 48 }
        ensures says_whether_finished { result ≡ finished (child_tree (tree_at self.now.plan) child) (part_at (width (child_tree (tree_at self.now.plan) child)) row.now.cells at) }
    {
        match child {
            None => true,
            Some(child) => self.finished(usize::from(child), row, at),
        }
    }

    /// Whether a node's initial cells are finished.
    #[cycle(finishing)]
    fn begins_finished(&self, i: usize) -> bool
        requires is_node { i < length (nodes_of self.now.plan) }
        ensures { result ≡ finished (tree_at self.now.plan i) (initial (tree_at self.now.plan i)) }
    {
        self.finished(i, &self.begun(i), 0)
    }

    /// Whether each instance of a body is finished.
    #[cycle(finishing)]
    fn each_finished(&self, body: usize, values: &[u16], row: &Row, at: usize) -> bool
        requires is_node { body < length (nodes_of self.now.plan) }
        requires is_inside { at + times values.now (width (tree_at self.now.plan body)) ≤ 48 }
        ensures { result ≡ all_instances (λ s. finished (tree_at self.now.plan body) s) (width (tree_at self.now.plan body)) values.now (part_at (times values.now (width (tree_at self.now.plan body))) row.now.cells at) }
    {
        let width = self.width(body);
        for k in 0..values.len() {
            if !self.finished(body, row, at + k * width) {
                return false;
            }
        }
        true
    }
}
