//! An opened diagram with the states that it holds: opening, what an event would lead to, the menu, and what is told of the held states.
#![tactic(auto)]

mod advancing;
mod asking;
pub mod held;
mod holding;
mod listing;
pub mod opened;
mod opening;
mod replacing;
mod tables;
mod telling;
