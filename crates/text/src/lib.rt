// Boolean programs in readable form: a text is parsed to a syntax tree of the crate `tree`, with the
// names and lines of what it has, and the bytes of a program are printed as such a text. Relies on
// `tree` for the tree and on `program` for reading bytes.
#![tactic(auto)]

mod cursor;
mod declarations;
pub mod diagnostics;
mod expressions;
mod lexer;
pub mod names;
mod nearest;
pub mod parser;
pub mod printer;
mod procedures;
mod reader;
pub mod refusals;
mod statements;
#[cfg(test)]
mod tests;
pub mod tokens;
