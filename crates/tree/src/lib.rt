// The syntax tree of Boolean programs, and its encoding as bytes. What a tree means, as a program of
// the crate `program`, is defined in specs/Meaning.antt. Relies on `program` for what programs are and
// how they are written as bytes.
#![tactic(auto)]

pub mod encoding;
pub mod faults;
pub mod limits;
pub mod programs;
pub mod sizes;
#[cfg(test)]
mod tests;
mod writing;
