// What the programs of this repository print, as text made from their arguments and the text of
// their files. Relies on `places` for deciding a program, on `program` for reading one and on `syntax` for
// its byte form.
#![tactic(auto)]

pub mod arguments;
pub mod complaints;
mod files;
pub mod loaded;
pub mod memory;
pub mod queries;
pub mod refused;
pub mod summaries;
pub mod verdicts;
pub mod waiting;
