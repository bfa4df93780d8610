//! Procedures: the nodes and arrows of a diagram, and the reader of procedure files.
#![tactic(auto)]

mod admit;
mod asking;
mod claim;
mod draft;
mod fill;
pub mod procedure;
mod read;
mod telling;
mod whole;
