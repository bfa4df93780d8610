//! Tests of runs: ten small diagrams with their rows and menus, and calls at both sides of every bound.
#![tactic(auto)]

#[cfg(test)]
mod bounds;
#[cfg(test)]
mod drawing;
#[cfg(test)]
mod following;
#[cfg(test)]
mod replays;
#[cfg(test)]
mod worked;
