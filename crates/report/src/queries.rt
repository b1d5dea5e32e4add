// Whether a program can be at a place with some values, as `reach` is asked and as it answers. Relies on
// `places` for the answer, on `files` for the program that a text holds, and on `program` for its procedures.
ghost use Rattle.std.specs.Prelude.{◌≡◌, ◌<◌, ◌≤◌, codes, ◌≢◌, slice_index};
ghost use Rattle.report.specs.Queries.{Parted, Spotted, Decided, Answered};

use crate::complaints::Complaint;
use crate::files::File;
use crate::loaded::Loaded;
use crate::memory::MOST_MEMORY;
use crate::refused::Word;
use crate::verdicts::verdict;
use places::{Known, know};
use program::procedures::Procedure;
use program::walks::Procedures;
use std::alloc::Global;
use std::num::IntErrorKind;

// A procedure, a place of it and the values of its variables, the first shared one as the lowest bit.
#[derive(Clone, Copy)]
pub struct Query {
    pub procedure: usize,
    pub place: usize,
    pub values: usize,
}

impl Query {
    // What these three words ask.
    pub fn new(
        heap: Global,
        procedure: &str,
        place: &str,
        values: &str,
    ) -> Result<Query, Complaint> {
        Ok(Query {
            procedure: number(heap, "procedure", "is", procedure)?,
            place: number(heap, "place", "is", place)?,
            values: number(heap, "values", "are", values)?,
        })
    }
}

// The number that `word` writes. The argument that it is, and the verb that goes with it, are for the
// sentence.
fn number(heap: Global, argument: &str, verb: &str, word: &str) -> Result<usize, Complaint> {
    let shown = Word(word.as_bytes());
    match word.parse::<usize>() {
        Ok(number) if !word.starts_with('+') => Ok(number),
        Err(error) if *error.kind() == IntErrorKind::PosOverflow => {
            Err(Complaint::new(format!(in heap; "The {argument} {shown} {verb} too large.")))
        }
        _ => {
            Err(Complaint::new(format!(in heap; "The {argument} \"{shown}\" {verb} no number.")))
        }
    }
}

// A procedure, where its bytes of the table begin, and how many each of its places has.
#[derive(Clone, Copy)]
pub struct Part {
    pub procedure: Procedure,
    pub base: usize,
    pub width: usize,
}

impl Part {
    // Where the byte that answers `query`, which is of this procedure, stands.
    fn byte_of(self, heap: Global, query: Query) -> Result<usize, Complaint>
        requires some { 1 ≤ self.width }
        requires small { (self.width ≤ 4096) × (self.base ≤ 67108864) }
        ensures { Spotted self query result }
    {
        let Query {
            procedure,
            place,
            values,
        } = query;
        let steps = usize::from(self.procedure.steps);
        if place > steps {
            return Err(Complaint::new(format!(in heap;
                "Procedure {procedure} has places 0 to {steps}, and no place {place}."
            )));
        }
        if values >= self.width {
            let last = self.width - 1;
            return Err(Complaint::new(format!(in heap;
                "Procedure {procedure} has values 0 to {last}, and no values {values}."
            )));
        }
        Ok(self.base + (place * self.width + values))
    }
}

impl Loaded<'_> {
    // Its part of procedure `number`.
    pub fn part(self, number: usize) -> Part
        requires { number < self.header.procs }
        ensures { Parted self.entry.bytes.now self.entry.header number result }
    {
        // Not by `nth`: `base` would want a second walk, and the `unreachable()` would stay.
        let mut base: usize = 0;
        for (i, procedure) in Procedures::new(self.bytes, self.header).enumerate() {
            if i == number {
                return Part {
                    procedure,
                    base,
                    width: self.header.width(procedure),
                };
            }
            base += self.header.table_size(procedure);
        }
        unreachable()
    }

    // Its table; `file` is for the sentence of refusal. `heap` and `file` are no fields: `memory` and `part` want neither,
    // and a caller that lends bytes may have no file.
    pub fn decide(self, heap: Global, file: &str) -> Result<Vec<u8>, Complaint>
        ensures { Decided self.entry.bytes.now result }
    {
        let memory = self.memory();
        if memory > MOST_MEMORY {
            return Err(Complaint::new(format!(in heap;
                "{file} needs {memory} bytes of memory, and {MOST_MEMORY} are the most."
            )));
        }
        let mut table = vec![in heap; 0u8; self.header.table]?;
        let mut work = vec![in heap; 0u32; self.header.work]?;
        match know(self.bytes, table.as_mut_slice(), work.as_mut_slice()) {
            Known::Told => Ok(table),
            Known::NoProgram | Known::OutFull | Known::Few => unreachable(),
        }
    }

    // That it has no such procedure.
    fn no_procedure(self, heap: Global, file: &str, procedure: usize) -> Complaint {
        let last = self.header.procs - 1;
        Complaint::new(format!(in heap;
            "{file} has procedures 0 to {last}, and no procedure {procedure}."
        ))
    }
}

// Whether the program that `file` holds as `text` can be where `query` asks: `yes` or `no`, on a line.
pub fn answer(heap: Global, file: &str, text: &[u8], query: Query) -> Result<String, Complaint>
    ensures { Answered text.now query result }
{
    let listed = File { name: file, text }.load(heap)?;
    let program = listed.program();
    if query.procedure >= program.header.procs {
        return Err(program.no_procedure(heap, file, query.procedure));
    }
    let at = program.part(query.procedure).byte_of(heap, query)?;
    let table = program.decide(heap, file)?;
    Ok(String::from_str(heap, reply(table.as_slice(), at))?)
}

// What the byte at `at` of the table says.
fn reply(table: &[u8], at: usize) -> &'static str
    ensures yes { slice_index table.now at ≡ 1 → result.now ≡ codes "yes\n" }
    ensures no { (slice_index table.now at ≢ 1) → result.now ≡ codes "no\n" }
{
    verdict(matches!(table.get(at), Some(1)))
}

#[cfg(test)]
mod tests {
    use super::*;
    use crate::complaints::shown;
    use std::test::Fail;

    const RING: &'static str = "1 0 1 3 1 1 4 1 1 2 3 1 1 3 1 0 0 2 1 0";

    // What is answered, or said, of the query of these three words.
    fn said(heap: Global, text: &str, words: (&str, &str, &str)) -> Result<String, Complaint> {
        let query = Query::new(heap, words.0, words.1, words.2)?;
        answer(heap, "f", text.as_bytes(), query)
    }

    #[test]
    fn answers(rt: HostRuntime) -> Result<(), Fail> {
        let cases = [
            (("1", "3", "2"), "yes\n"),
            (("1", "3", "3"), "no\n"),
            (("1", "3", "0"), "yes\n"),
            (("1", "3", "1"), "yes\n"),
            (("0", "1", "1"), "yes\n"),
        ];
        for (words, expected) in cases {
            let outcome = said(rt.alloc(), RING, words);
            assert_eq!(rt; shown(rt.alloc(), outcome)?.as_str(), expected);
        }
        Ok(())
    }

    #[test]
    fn refusals(rt: HostRuntime) -> Result<(), Fail> {
        let cases = [
            (RING, ("x7", "0", "0"), "The procedure \"x7\" is no number."),
            (RING, ("0", "+1", "0"), "The place \"+1\" is no number."),
            (RING, ("0", "0", ""), "The values \"\" are no number."),
            (
                RING,
                ("0", "18446744073709551616", "0"),
                "The place 18446744073709551616 is too large.",
            ),
            (
                RING,
                ("7", "0", "0"),
                "f has procedures 0 to 1, and no procedure 7.",
            ),
            (
                RING,
                ("1", "9", "0"),
                "Procedure 1 has places 0 to 4, and no place 9.",
            ),
            (
                RING,
                ("1", "4", "12"),
                "Procedure 1 has values 0 to 3, and no values 12.",
            ),
            (
                "6 6 3 4 4 4",
                ("0", "0", "0"),
                "f needs 4751366 bytes of memory, and 4194304 are the most.",
            ),
            (
                "1\n 3x\t",
                ("0", "0", "0"),
                "Line 2 of f has \"3x\", which is no number.",
            ),
            (
                "# nothing\n",
                ("0", "0", "0"),
                "f is no program: at byte 0 (line 1) it ends early.",
            ),
        ];
        for (text, words, expected) in cases {
            let outcome = said(rt.alloc(), text, words);
            assert_eq!(rt; shown(rt.alloc(), outcome)?.as_str(), expected);
        }
        Ok(())
    }
}
