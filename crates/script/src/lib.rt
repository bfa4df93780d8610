//! Scripts: the calls that their lines make, what each comes to, and the guard host that they set.
#![tactic(auto)]

mod call_text;
mod calling;
pub mod error_line;
pub mod event_text;
pub mod host_kind;
pub mod hosting;
pub mod laws;
pub mod line;
pub mod name;
mod number;
pub mod outcome_line;
pub mod parsing;
pub mod rows_line;
pub mod setting;
mod spaced;
mod words;
pub mod wrong;
