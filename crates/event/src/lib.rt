//! Events: a label and up to two argument values, when one is in form, and the order of events.
#![tactic(auto)]

pub mod event;
pub mod form;
pub mod order;
