// What a program says when it cannot answer. Relies on std alone.
ghost use Rattle.std.specs.Prelude.{◌≡◌, ℕ, List, IfOk, string_bytes, MatchResult};
ghost use Rattle.report.specs.declared.complaints.Complaint.TheVariants.{Sentence, Memory};
ghost use Rattle.report.specs.Complaints.{Said};

#[cfg(test)]
use std::alloc::Global;
use std::alloc::{AllocError, AllocFailed};
use std::fmt;

// One sentence, or that memory was short. Not an `Option` of a sentence: it is the error that `?` makes from others by
// `From`, and that is shown by `Display`.
#[derive(Drop)]
pub enum Complaint {
    Sentence(String),
    Memory,
}

impl Complaint {
    // The sentence, if there was memory to make it. As a `From` it is no plainer: each caller would first bind the
    // outcome of its `format!`, with its type.
    pub fn new(sentence: Result<String, AllocError>) -> Complaint
        ensures is { MatchResult sentence (λ text. result ≡ Sentence text) (λ _. result ≡ Memory) }
        ensures said { (text : List ℕ) → IfOk sentence (λ t. string_bytes t ≡ text) → Said result text }
    {
        match sentence {
            Ok(text) => Complaint::Sentence(text),
            Err(_) => Complaint::Memory,
        }
    }
}

// These two stay written by hand: clauses name the error that a `?` makes, and the `From` of a derive says none.
impl From<AllocError> for Complaint {
    ghost from_gives = { λ _ r. r ≡ Memory };

    fn from(_error: AllocError) -> Complaint {
        Complaint::Memory
    }
}

impl<T: Drop> From<AllocFailed<T>> for Complaint {
    ghost from_gives = { λ _ r. r ≡ Memory };

    fn from(_refused: AllocFailed<T>) -> Complaint {
        Complaint::Memory
    }
}

impl fmt::Display for Complaint {
    fn fmt<W: fmt::Write>(&self, f: &mut fmt::Formatter<W>) -> fmt::Result {
        match self {
            Complaint::Sentence(sentence) => f.write_str(sentence.as_str()),
            Complaint::Memory => f.write_str("There is not enough memory."),
        }
    }
}

// What is told, or said in its place.
#[cfg(test)]
pub fn shown<T: fmt::Display + Drop>(
    heap: Global,
    outcome: Result<T, Complaint>,
) -> Result<String, AllocError> {
    match outcome {
        Ok(told) => told.to_string(heap),
        Err(complaint) => complaint.to_string(heap),
    }
}
