//! Refusals: which question was answered no, in which layer, at which place.
#![tactic(auto)]

pub mod fault;
pub mod telling;
