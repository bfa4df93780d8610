//! Tests of the search: small diagrams with the rows that the rules give them, and searches that must not take long.
#![tactic(auto)]

#[cfg(test)]
mod drawing;
#[cfg(test)]
mod following;
#[cfg(test)]
mod kinds;
#[cfg(test)]
mod many;
#[cfg(test)]
mod menus;
