//! A list that stays in rising order without repeats, over places that the caller lends: one text for every element with a total order.
#![tactic(auto)]

pub mod holding;
pub mod list;
pub mod number;
mod placing;
pub mod rank;
