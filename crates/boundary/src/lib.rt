//! What a program in another language may call: only numbers and slices cross, and nothing is kept between two calls.
#![tactic(auto)]

mod asked;
mod exports;
mod playing;
mod saying;
mod setting;
