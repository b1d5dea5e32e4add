// A text in readable form, as far as it has to be decided: parsed, encoded, decided. Relies on `text` for parsing and
// on `tree` for encoding.
ghost use Rattle.answers.specs.Sources.{EncodedTree, DecidedTree, AnsweredTree};

use crate::deciding::Decided;
use crate::reached::Question;
use crate::replies::reply;
use report::complaints::Complaint;
use std::alloc::Global;
use std::fmt;
use text::diagnostics::Diagnostic;
use text::parser::{Failure, Source, parse};
use text::refusals::refused;
use tree::encoding::encode;

// What is wrong with a file, a line each.
#[derive(Clone, Copy)]
struct Report<'f, 'd> {
    file: &'f str,
    errors: &'d [Diagnostic],
}

impl fmt::Display for Report<'_, '_> {
    fn fmt<W: fmt::Write>(&self, f: &mut fmt::Formatter<W>) -> fmt::Result {
        let file = self.file;
        for (i, error) in self.errors.iter().enumerate() {
            if i > 0 {
                f.write_str("\n")?;
            }
            write!(f, "{file}: {error}")?;
        }
        Ok(())
    }
}

// A program in readable form: what was parsed, and of which file.
#[derive(Clone, Copy)]
pub struct Written<'f, 's> {
    pub file: &'f str,
    pub source: &'s Source,
}

// The program that `file` holds as `text`, or what is wrong with it.
pub fn load(heap: Global, file: &str, text: &[u8]) -> Result<Source, Complaint> {
    parse(heap, text).map_err(|failure| match failure {
        Failure::Memory => Complaint::Memory,
        Failure::Errors(errors) => {
            let report = Report {
                file,
                errors: errors.as_slice(),
            };
            Complaint::new(format!(in heap; "{report}"))
        }
    })
}

impl Written<'_, '_> {
    // The bytes of the program that it means.
    fn encode(self, heap: Global) -> Result<Vec<u8>, Complaint>
        ensures { EncodedTree self.entry.source.now.tree result }
    {
        let file = self.file;
        encode(heap, &self.source.tree).map_err(|fault| {
            let refusal = refused(fault, &self.source.names);
            Complaint::new(format!(in heap; "{file}: {refusal}"))
        })
    }

    // The table of the program that it means.
    pub fn decide(self, heap: Global) -> Result<Decided, Complaint>
        ensures { DecidedTree self.entry.source.now.tree result }
    {
        let bytes = self.encode(heap)?;
        Decided::new(heap, self.file, bytes)
    }

    // The answer to a question about the program that it means.
    pub fn answer(self, heap: Global, question: Question) -> Result<String, Complaint>
        ensures { AnsweredTree self.entry.source.now.tree question result }
    {
        let decided = self.decide(heap)?;
        reply(heap, &self.source.names, &decided, question)
    }
}
