//! A run of a diagram: opening, offers, menus and what it tells, with the law over whole runs on each call.
#![tactic(auto)]

mod calling;
mod replaying;
pub mod run;
mod telling;
