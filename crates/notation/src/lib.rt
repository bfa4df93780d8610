//! The parts of a diagram as a procedure file draws them: nodes, their states and sets of labels, and arrows.
#![tactic(auto)]

pub mod arrow;
pub mod node;
pub mod parts;
pub mod table;
