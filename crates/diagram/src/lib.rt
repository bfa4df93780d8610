//! An opened diagram's fixed part: a procedure whose types have their values, how wide each node is, which binders are above it and which arrows it has, and which arrows have a label;
//! the cells that a node begins with, and when they are finished.
#![tactic(auto)]

pub mod beginning;
pub mod binders;
pub mod binding;
pub mod candidates;
pub mod diagram;
pub mod finishing;
pub mod keyed_arrows;
pub mod laws;
pub mod measuring;
pub mod opening;
mod owning;
pub mod part;
pub mod plan;
pub mod scope;
pub mod telling;
pub mod type_values;
pub mod valuing;
