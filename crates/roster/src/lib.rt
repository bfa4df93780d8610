//! Rosters: which values each type has, as a yard lists its axles.
#![tactic(auto)]

pub mod range;
pub mod ranges;
pub mod roster;
pub mod setting;
