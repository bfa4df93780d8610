//! A state of a diagram as a row of cells, and the order of rows.
#![tactic(auto)]

pub mod order;
pub mod row;
