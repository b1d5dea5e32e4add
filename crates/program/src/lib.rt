// Boolean programs with calls, as they stand in bytes: reading them exactly, and evaluating their
// expressions where they stand. Definitions are in specs/, and docs/FORMAT.md says them in words.
// This crate knows nothing of how reachability is decided.
#![tactic(auto)]

pub mod bytes;
pub mod expressions;
pub mod kinds;
pub mod laws;
pub mod procedures;
pub mod programs;
pub mod refusals;
pub mod steps;
#[cfg(test)]
mod tests;
pub mod values;
pub mod walks;
