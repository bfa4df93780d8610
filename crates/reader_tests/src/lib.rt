//! Tests of the reader: both sides of each bound of a procedure file.
#![tactic(auto)]

#[cfg(test)]
mod file;
#[cfg(test)]
mod tests;
