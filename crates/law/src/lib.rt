//! The law over whole runs: what offers and menus come to, told by the chains that lead to the held states.
#![tactic(auto)]

pub mod call;
pub mod laws;
