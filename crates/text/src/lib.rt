//! What the program says: the lines of nodes, arrows and faults, byte for byte.
#![tactic(auto)]

pub mod accepted_line;
pub mod arrow_line;
mod each;
pub mod fault_line;
pub mod label;
mod label_set;
pub mod listing;
pub mod node_line;
mod state_list;
