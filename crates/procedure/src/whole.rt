ghost use Rattle.std.specs.Prelude.{◌≡◌, ◌<◌, ◌≤◌, length, slice_index_or};
ghost use Rattle.fault.specs.Asking.{Answers};
ghost use Rattle.notation.specs.Parts.{binds, blank_node, blank_arrow};
ghost use Rattle.procedure.specs.Scopes.{parent_of, attached, binders_above, binders_few, in_scope};
ghost use Rattle.procedure.specs.Reading.{root_asks, binder_asks, scope_asks, whole_asks};

use crate::asking::ask_each;
use crate::draft::Draft;
use fault::fault::{Fault, NO_NODE, Question};

// A node's number is below the draft's count: only a type that holds both could say so, as `Claims` does, and it would hold nothing else.

impl Draft {
    /// The node of which a node is a child.
    fn parent_of(&self, node: usize) -> Option<u16>
        requires { node < 64 }
        ensures { result ≡ parent_of self.now.nodes node }
    {
        self.parents[node]
    }

    /// Question 8 of one node: it is the last, or a child.
    fn is_attached(&self, node: usize) -> bool
        requires { node < length self.now.nodes }
        ensures { result ≡ attached self.now.nodes node }
    {
        self.nodes.len() == node + 1 || self.parent_of(node).is_some()
    }

    /// Question 8: there is a node, and every node but the last is a child.
    fn rooted(&self) -> Result<(), Fault>
        ensures { Answers (root_asks self.now) result }
    {
        if self.nodes.is_empty() {
            return Err(Question::OneRoot.at(NO_NODE));
        }
        ask_each(
            Question::OneRoot,
            self.nodes.len(),
            |node| self.is_attached(node),
        )
    }

    /// Whether a node is a binder.
    fn is_binder(&self, node: usize) -> bool
        requires { node < length self.now.nodes }
        ensures tells { result ≡ binds (slice_index_or self.now.nodes node blank_node) }
        ensures few { length self.now.nodes ≤ 64 }
    {
        self.nodes.as_slice()[node].is_binder()
    }

    /// How many binders stand above a node. It takes no more steps than there are nodes, since no way to the root is longer.
    fn binders_above(&self, node: usize) -> usize
        requires { node < 64 }
        ensures { result ≡ binders_above self.now.nodes node }
    {
        let mut at = node;
        let mut above = 0;
        for _ in 0..self.nodes.len() {
            let Some(parent) = self.parent_of(at) else {
                return above;
            };
            at = usize::from(parent);
            above += usize::from(self.is_binder(at));
        }
        above
    }

    /// Question 9 of one node.
    fn binder_fits(&self, node: usize) -> bool
        requires { node < length self.now.nodes }
        ensures { result ≡ binders_few self.now.nodes node }
    {
        !self.is_binder(node) || self.binders_above(node) <= 1
    }

    /// Question 9: every binder is under at most one other.
    fn binders_fit(&self) -> Result<(), Fault>
        ensures { Answers (binder_asks self.now) result }
    {
        ask_each(
            Question::BindersFew,
            self.nodes.len(),
            |node| self.binder_fits(node),
        )
    }

    /// Question 10 of one arrow.
    fn arrow_fits(&self, number: usize) -> bool
        requires { number < length self.now.arrows }
        ensures { result ≡ in_scope self.now.nodes (slice_index_or self.now.arrows number blank_arrow) }
    {
        let arrow = self.arrows.as_slice()[number];
        let above = self.binders_above(usize::from(arrow.node));
        arrow.first.binders() <= above && arrow.second.binders() <= above
    }

    /// Question 10: every arrow's variables are in scope.
    fn arrows_fit(&self) -> Result<(), Fault>
        ensures { Answers (scope_asks self.now) result }
    {
        ask_each(
            Question::VariablesInScope,
            self.arrows.len(),
            |number| self.arrow_fits(number),
        )
    }

    /// Questions 8 to 10, of everything that was read.
    pub(crate) fn whole(&self) -> Result<(), Fault>
        ensures { Answers (whole_asks self.now) result }
    {
        self.rooted()?;
        self.binders_fit()?;
        self.arrows_fit()
    }
}
