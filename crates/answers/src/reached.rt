// Where runs come to in a program that was decided. Relies on `report` for where a procedure's bytes stand.
ghost use Rattle.std.specs.Prelude.{◌≡◌, ◌+◌, ◌*◌, ◌<◌, ◌≤◌, length, take, drop};
ghost use Rattle.answers.specs.Looking.{Flagged, Found};

use crate::deciding::Decided;
use crate::matches::{Matches, Pattern, is_reached, matching};
use report::complaints::Complaint;
use report::queries::Part;
use std::alloc::Global;

// A place of a procedure, and some variables there.
#[derive(Clone, Copy)]
pub struct Question {
    pub procedure: usize,
    pub place: usize,
    pub pattern: Pattern,
}

// The bytes of a place, in this part of the table.
fn place_bytes(table: &[u8], part: Part, place: usize) -> &[u8]
    requires { part.base + (place * part.width + part.width) ≤ length table.now }
    ensures { result.now ≡ take part.width (drop (part.base + place * part.width) table.now) }
{
    let from = part.base + place * part.width;
    &table[from..from + part.width]
}

impl Decided {
    // For each place of procedure `f`, whether some run comes there.
    pub fn reached_places(&self, heap: Global, f: usize) -> Result<Vec<bool>, Complaint>
        requires { f < self.now.header.procs }
        ensures { Flagged self.now f result }
    {
        let part = self.program().part(f);
        // Not by `map` and `collect`: the closure would need clauses of its own, on where `place` is and what its flag says.
        let mut flags = Vec::new(heap);
        for place in 0..usize::from(part.procedure.steps) + 1 {
            let bytes = place_bytes(self.table.as_slice(), part, place);
            flags.push(is_reached(bytes))?;
        }
        Ok(flags)
    }

    // With which values, of those asked for, some run comes to a place.
    pub fn look(&self, heap: Global, question: Question) -> Result<Matches, Complaint>
        ensures { Found self.now question result }
    {
        if question.procedure >= self.header.procs {
            return Err(Complaint::new(String::from_str(heap, "There is no such procedure.")));
        }
        let part = self.program().part(question.procedure);
        if question.place > usize::from(part.procedure.steps) {
            return Err(Complaint::new(String::from_str(heap, "There is no such place.")));
        }
        let bytes = place_bytes(self.table.as_slice(), part, question.place);
        Ok(matching(heap, bytes, question.pattern)?)
    }
}
