//! The search for the successors of a diagram's state by one event: exactly those that the rules derive.
#![tactic(auto)]

pub mod collecting;
mod firing;
mod leading;
pub mod overflow;
pub mod search;
