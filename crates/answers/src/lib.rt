//! What the guards of a diagram answer to an event: a host is asked beforehand, so that the search need not know it.
#![tactic(auto)]

pub mod answers;
pub mod asking;
pub mod carrying;
mod place;
pub mod replying;
pub mod willing;
