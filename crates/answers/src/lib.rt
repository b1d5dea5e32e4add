// What the programs answer of a program in readable form. Relies on `tree` for what it means as a program, on
// `report` for deciding that.
#![tactic(auto)]

pub mod deciding;
pub mod matches;
pub mod questions;
pub mod reached;
pub mod replies;
mod scopes;
pub mod sources;
pub mod surveys;
#[cfg(test)]
mod tests;
