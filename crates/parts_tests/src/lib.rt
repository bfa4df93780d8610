//! Tests of ordered lists, events, rosters and guard hosts: both sides of each bound.
#![tactic(auto)]

#[cfg(test)]
mod hosts;
#[cfg(test)]
mod lists;
#[cfg(test)]
mod settings;
#[cfg(test)]
mod told;
