//! Guard hosts: what answers whether a guard holds for an event, and is told each event that was taken.
#![tactic(auto)]

pub mod guards;
pub mod host;
pub mod limit;
pub mod limiting;
pub mod limits;
pub mod tallies;
pub mod tally;
pub mod tallying;
pub mod telling;
pub mod variables;
