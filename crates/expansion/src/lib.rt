// A program expanded into words: four for each node of its numbered system, and the call places of each
// procedure. Relies on `program` for reading steps and for the numbers of nodes; knows nothing of how
// the words are used. Casts by `as` are between u32 and usize, for which std has no `From`; each is proved to
// lose nothing.
#![tactic(auto)]

pub mod nodes;
pub mod places;
pub mod procedures;
pub mod programs;
pub mod sites;
pub mod source;
