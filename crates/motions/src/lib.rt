//! What a search for successors decides and collects, said of rows: the lemmas that its code rests on.
#![tactic(auto)]

pub mod laws;
