//! Ten worked diagrams: small files, with what is held after each event, which events are possible, and how an offer is answered.
#![tactic(auto)]

pub mod settings;
