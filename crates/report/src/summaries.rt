// What `reach` tells of a program before it is decided. Relies on `files` for the program that a text holds.
ghost use Rattle.report.specs.Summaries.{Walked, Summarised};

use crate::complaints::Complaint;
use crate::files::File;
use crate::loaded::Loaded;
use program::procedures::Procedure;
use program::programs::Header;
use program::walks::Procedures;
use std::alloc::Global;
use std::fmt;

// So many things of a kind, as `1 step` or `4 steps`.
#[derive(Clone, Copy)]
struct Count(usize, &'static str);

impl fmt::Display for Count {
    fn fmt<W: fmt::Write>(&self, f: &mut fmt::Formatter<W>) -> fmt::Result {
        let number = self.0;
        let thing = self.1;
        let plural = if number == 1 { "" } else { "s" };
        write!(f, "{number} {thing}{plural}")
    }
}

// A program and its procedures.
#[derive(Drop)]
struct Overview {
    header: Header,
    procedures: Vec<Procedure>,
}

impl fmt::Display for Overview {
    fn fmt<W: fmt::Write>(&self, f: &mut fmt::Formatter<W>) -> fmt::Result {
        let shared = self.header.shared;
        let count = self.header.procs;
        writeln!(f, "shared variables: {shared}")?;
        writeln!(f, "procedures: {count}")?;
        for (i, procedure) in self.procedures.iter().enumerate() {
            let own = Count(usize::from(procedure.own), "own variable");
            let steps = Count(usize::from(procedure.steps), "step");
            writeln!(f, "  procedure {i}: {own}, {steps}")?;
        }
        let table = Count(self.header.table, "byte");
        let work = Count(self.header.work, "word");
        writeln!(f, "table: {table}")?;
        writeln!(f, "work: {work}")
    }
}

impl Loaded<'_> {
    // Its procedures, in order.
    fn procedures(self, heap: Global) -> Result<Vec<Procedure>, Complaint>
        ensures { Walked self.entry.bytes.now self.entry.header result }
    {
        Ok(Procedures::new(self.bytes, self.header).collect(heap)?)
    }
}

// What there is to tell of the program that `file` holds as `text`.
pub fn summary(heap: Global, file: &str, text: &[u8]) -> Result<String, Complaint>
    ensures { Summarised text.now result }
{
    let listed = File { name: file, text }.load(heap)?;
    let program = listed.program();
    let overview = Overview {
        header: program.header,
        procedures: program.procedures(heap)?,
    };
    Ok(format!(in heap; "{overview}")?)
}

#[cfg(test)]
mod tests {
    use super::*;
    use crate::complaints::shown;
    use std::test::Fail;

    #[test]
    fn texts(rt: HostRuntime) -> Result<(), Fail> {
        let cases = [
            (
                "1 # shared\n0 1 3 1\n1 4 1 1 2 3 1 1 3 1 0 0 2 1 0",
                "shared variables: 1\nprocedures: 2\n  procedure 0: 0 own variables, 1 step\n  procedure 1: 1 own variable, 4 steps\ntable: 24 bytes\nwork: 4336 words\n",
            ),
            (
                "# nothing\n",
                "f is no program: at byte 0 (line 1) it ends early.",
            ),
            ("1\n 3x\t", "Line 2 of f has \"3x\", which is no number."),
            (
                "12345678901234567890#",
                "Line 1 of f has 12345678901234567890, which is above 255.",
            ),
            (
                "0\x011234567890123456789",
                "Line 1 of f has \"0?123456789012345678...\", which is no number.",
            ),
        ];
        for (text, expected) in cases {
            let outcome = summary(rt.alloc(), "f", text.as_bytes());
            assert_eq!(rt; shown(rt.alloc(), outcome)?.as_str(), expected);
        }
        Ok(())
    }
}
