//! One record of a procedure file: its frame, and the node or arrow that its fields tell.
#![tactic(auto)]

pub mod decode;
pub mod entry;
pub mod frame;
pub mod kind;
pub mod record;
mod tabling;
