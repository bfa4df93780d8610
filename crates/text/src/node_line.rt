ghost use Rattle.std.specs.Prelude.{Some};
ghost use Rattle.text.specs.Texts.{node_text, node_line_text};

use crate::label_set::LabelSet;
use crate::state_list::StateList;
use notation::node::Node;
use std::fmt;

/// The line of a node: `node 8: choice, left 6, right 7`. It is a public text of its own name, as the line of an arrow is.
#[derive(Clone, Copy)]
pub struct NodeLine<'a> {
    pub number: usize,
    pub node: &'a Node,
}

impl fmt::Display for NodeLine<'_> {
    ghost output = { λ x. Some (node_line_text x.number x.node.now) };

    fn fmt<W: fmt::Write>(&self, f: &mut fmt::Formatter<W>) -> fmt::Result {
        write!(f, "node {}: {}", self.number, NodeText(self.node))
    }
}

#[derive(Clone, Copy)]
struct NodeText<'a>(&'a Node);

impl fmt::Display for NodeText<'_> {
    ghost output = { λ x. Some (node_text x.0.now) };

    fn fmt<W: fmt::Write>(&self, f: &mut fmt::Formatter<W>) -> fmt::Result {
        match self.0 {
            Node::Automaton { states } => {
                write!(
                    f,
                    "automaton, start {}, {}",
                    states.start,
                    StateList(states)
                )
            }
            Node::Sequence { first, second } => {
                write!(f, "sequence, first {first}, second {second}")
            }
            Node::Closure { body } => write!(f, "closure, body {body}"),
            Node::Guard { guard, body } => write!(f, "guard {guard}, body {body}"),
            Node::Choice { left, right } => write!(f, "choice, left {left}, right {right}"),
            Node::Synchronisation {
                left,
                right,
                labels,
            } => {
                write!(
                    f,
                    "synchronisation, left {left}, right {right}, {}",
                    LabelSet(labels)
                )
            }
            Node::QuantifiedChoice { over, body } => {
                write!(f, "quantified choice, type {over}, body {body}")
            }
            Node::QuantifiedSynchronisation { over, body, labels } => {
                write!(
                    f,
                    "quantified synchronisation, type {over}, body {body}, {}",
                    LabelSet(labels)
                )
            }
        }
    }
}
