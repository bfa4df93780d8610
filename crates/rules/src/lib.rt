//! The rules of diagrams, as a specification: what a state is, how an event moves it, and what chains of states a list of events has.
//! The functions of this crate do nothing: each stands for the theorems that its contract names.
#![tactic(auto)]

pub mod examples;
pub mod laws;
