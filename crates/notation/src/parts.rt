ghost use Rattle.std.specs.Prelude.{◌≡◌, ◌≤◌, slice_index_or};
ghost use Rattle.notation.specs.Parts.{blank_state, is_absent, children_of, binds, over_of, states_of, binders_for};

use crate::arrow::Argument;
use crate::node::{Mark, Node, State, States};
use crate::table::Table;

impl Argument {
    pub fn is_absent(self) -> bool
        ensures says_whether_absent { result ≡ is_absent self }
    {
        matches!(self, Argument::Absent)
    }

    /// How many binders must be above an arrow for this argument to have a value.
    pub fn binders(self) -> usize
        ensures counts_binders_needed { result ≡ binders_for self }
    {
        match self {
            Argument::Absent | Argument::Constant(_) => 0,
            Argument::Outer => 1,
            Argument::Inner => 2,
        }
    }
}

impl States {
    /// The state of a number; one that is not there has no mark and no child.
    pub fn state(&self, number: u16) -> State
        ensures tells_the_state { result ≡ slice_index_or self.now.table.items number blank_state }
    {
        let blank = State {
            mark: Mark::Unmarked,
            child: None,
        };
        self.table
            .as_slice()
            .get(usize::from(number))
            .copied()
            .unwrap_or(blank)
    }
}

impl Node {
    /// Its children, in the order in which its record names them.
    pub fn children(&self) -> Table<u16, 32>
        ensures tells_the_children { result.items ≡ children_of self.now }
    {
        let mut children = Table::new(0);
        match self {
            Node::Closure { body }
            | Node::Guard { body, .. }
            | Node::QuantifiedChoice { body, .. }
            | Node::QuantifiedSynchronisation { body, .. } => children.push(*body),
            Node::Sequence { first, second } => {
                children.push(*first);
                children.push(*second);
            }
            Node::Choice { left, right } | Node::Synchronisation { left, right, .. } => {
                children.push(*left);
                children.push(*right);
            }
            Node::Automaton { states } => {
                for state in states.table.as_slice() {
                    if let Some(child) = state.child {
                        children.push(child);
                    }
                }
            }
        }
        children
    }

    /// Whether the node binds a variable over its body.
    pub fn is_binder(&self) -> bool
        ensures says_whether_it_binds { result ≡ binds self.now }
    {
        matches!(
            self,
            Node::QuantifiedChoice { .. } | Node::QuantifiedSynchronisation { .. }
        )
    }

    /// The type that a binder binds a variable over, absent for any other node.
    pub fn over(&self) -> Option<u16>
        ensures tells_the_type { result ≡ over_of self.now }
    {
        match self {
            Node::QuantifiedChoice { over, .. } | Node::QuantifiedSynchronisation { over, .. } => {
                Some(*over)
            }
            _ => None,
        }
    }

    /// The number of states of an automaton, 0 for any other node: no state is below 0, which is all that a reading asks, so no `Option`.
    pub fn states(&self) -> u16
        ensures counts_states { result ≡ states_of self.now }
        ensures at_most_32 { result ≤ 32 }
    {
        match self {
            // at most 32, so nothing is cut off
            Node::Automaton { states } => states.table.len() as u16,
            _ => 0,
        }
    }
}
