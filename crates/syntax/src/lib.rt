// How a program is written down as text. Relies on std alone.
#![tactic(auto)]

pub mod decimal;
mod words;
