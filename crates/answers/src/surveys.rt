// A program as a whole: how many places are never reached, which they are, and how many calls can wait. Relies on
// `reached` for which places are reached, and on `report` for how many calls can wait.
use crate::deciding::Decided;
use crate::sources::Written;
use report::complaints::Complaint;
use report::waiting::Waiting;
use std::alloc::Global;
use std::fmt;
use std::iter::Zip;
use std::slice::Iter;
use text::names::{Names, ProcedureNames};

// For each procedure, in the order of the names, a flag for each of its places: whether some run comes there.
#[derive(Drop)]
struct Survey<'n> {
    names: &'n Names,
    reached: Vec<Vec<bool>>,
}

impl Survey<'_> {
    // Each procedure with its flags.
    fn procedures(&self) -> Zip<Iter<'_, ProcedureNames>, Iter<'_, Vec<bool>>> {
        self.names.procedures.iter().zip(self.reached.iter())
    }
}

impl Decided {
    // The survey of it, whose names are these.
    fn survey<'n>(&self, heap: Global, names: &'n Names) -> Result<Survey<'n>, Complaint> {
        // Not by `map` and `try_collect`: the closure would need a clause of its own, that `f` is below `procs`.
        let mut reached = Vec::new(heap);
        for f in 0..self.header.procs {
            reached.push(self.reached_places(heap, f)?)?;
        }
        Ok(Survey { names, reached })
    }
}

// How many of the flags are false.
fn never(flags: &[bool]) -> usize {
    flags.iter().filter(|flag| !**flag).count()
}

// What `reach FILE` tells.
#[derive(Drop)]
struct Overview<'n> {
    survey: Survey<'n>,
    waiting: Waiting,
}

impl fmt::Display for Overview<'_> {
    fn fmt<W: fmt::Write>(&self, f: &mut fmt::Formatter<W>) -> fmt::Result {
        let shared = self.survey.names.shared.len();
        let procedures = self.survey.reached.len();
        writeln!(f, "shared variables: {shared}")?;
        writeln!(f, "procedures: {procedures}")?;
        let mut places: usize = 0;
        let mut missed: usize = 0;
        for (procedure, flags) in self.survey.procedures() {
            let name = procedure.name.as_str();
            let own = procedure.own.len();
            let here = flags.len();
            let never_here = never(flags.as_slice());
            writeln!(
                f,
                "  {name}: own variables {own}, places {here}, never reached {never_here}"
            )?;
            places = places.saturating_add(here);
            missed = missed.saturating_add(never_here);
        }
        let waiting = self.waiting;
        writeln!(f, "places: {places}")?;
        writeln!(f, "never reached: {missed}")?;
        writeln!(f, "{waiting}")
    }
}

// The places of a procedure that no run comes to, a line each; or, if none comes to its first one, that nobody calls
// it.
#[derive(Clone, Copy)]
struct MissedPlaces<'n, 'f, 't> {
    procedure: &'n ProcedureNames,
    flags: &'f [bool],
    text: &'t str,
}

impl fmt::Display for MissedPlaces<'_, '_, '_> {
    fn fmt<W: fmt::Write>(&self, f: &mut fmt::Formatter<W>) -> fmt::Result {
        let name = self.procedure.name.as_str();
        if matches!(self.flags.first(), Some(false)) {
            let line = self.procedure.line;
            return writeln!(f, "{name} line {line}: nobody calls it");
        }
        let lines = self.procedure.lines.iter();
        for ((place, flag), line) in self.flags.iter().enumerate().zip(lines) {
            if !*flag {
                let shown = self
                    .text
                    .lines()
                    .nth(line.saturating_sub(1))
                    .unwrap_or("")
                    .trim();
                writeln!(f, "{name}:{place} line {line}: {shown}")?;
            }
        }
        Ok(())
    }
}

// What `unreached FILE` tells.
#[derive(Drop)]
struct Missed<'n, 't> {
    survey: Survey<'n>,
    text: &'t str,
}

impl fmt::Display for Missed<'_, '_> {
    fn fmt<W: fmt::Write>(&self, f: &mut fmt::Formatter<W>) -> fmt::Result {
        let text = self.text;
        if self
            .survey
            .procedures()
            .all(|(_, flags)| never(flags.as_slice()) == 0)
        {
            return f.write_str("every place is reached\n");
        }
        for (procedure, flags) in self.survey.procedures() {
            let flags = flags.as_slice();
            let missed = MissedPlaces {
                procedure,
                flags,
                text,
            };
            write!(f, "{missed}")?;
        }
        Ok(())
    }
}

impl Written<'_, '_> {
    // What there is to tell of the program that it means.
    pub fn summary(self, heap: Global) -> Result<String, Complaint> {
        let decided = self.decide(heap)?;
        let overview = Overview {
            survey: decided.survey(heap, &self.source.names)?,
            waiting: decided.program().calls_waiting(heap)?,
        };
        Ok(format!(in heap; "{overview}")?)
    }

    // The places of the program that it means to which no run comes; `text` is what it was parsed from.
    pub fn unreached(self, heap: Global, text: &[u8]) -> Result<String, Complaint> {
        let decided = self.decide(heap)?;
        let text = String::from_utf8_lossy(heap, text)?;
        let missed = Missed {
            survey: decided.survey(heap, &self.source.names)?,
            text: text.as_str(),
        };
        Ok(format!(in heap; "{missed}")?)
    }
}
