// The question that the words of a query ask: PROCEDURE:PLACE, then NAME=0 or NAME=1 for some variables. Relies on
// `text` for the names that there are.
use crate::matches::Pattern;
use crate::reached::Question;
use crate::scopes::Scope;
use report::complaints::Complaint;
use report::refused::Word;
use std::alloc::Global;
use std::fmt;
use text::names::{Names, find, find_variable};

// Names, one behind another, with commas between. Not the slices of what is `Named`: it was tried, and that a chain of
// two such slices ends was not proved (`loop-i-init`). `Assignment` and `Report` join what they show by such a loop
// too: one over any iterator would want clauses that it may go on and that it ends, and is no plainer.
#[derive(Drop)]
struct Listed<'n>(Vec<&'n str>);

impl fmt::Display for Listed<'_> {
    fn fmt<W: fmt::Write>(&self, f: &mut fmt::Formatter<W>) -> fmt::Result {
        for (i, name) in self.0.iter().enumerate() {
            if i > 0 {
                f.write_str(", ")?;
            }
            f.write_str(*name)?;
        }
        Ok(())
    }
}

// The number of the procedure with this name.
pub fn find_procedure(heap: Global, names: &Names, word: &str) -> Result<usize, Complaint> {
    if let Some(number) = find(&names.procedures, word.as_bytes()) {
        return Ok(number);
    }
    let shown = Word(word.as_bytes());
    let all = Listed(
        names
            .procedures
            .iter()
            .map(|procedure| procedure.name.as_str())
            .collect(heap)?,
    );
    Err(Complaint::new(format!(in heap; "There is no procedure \"{shown}\"; there are {all}.")))
}

impl Scope<'_> {
    // The place that a label or a number names.
    fn place(self, heap: Global, word: &str) -> Result<usize, Complaint> {
        let procedure = self.procedure;
        let name = procedure.name.as_str();
        let shown = Word(word.as_bytes());
        if let Ok(place) = word.parse::<usize>() {
            let last = procedure.lines.len().saturating_sub(1);
            if place > last {
                return Err(Complaint::new(format!(in heap;
                    "Procedure {name} has places 0 to {last}, and no place {shown}."
                )));
            }
            return Ok(place);
        }
        let labels = procedure.labels.as_slice();
        if let Some(number) = find(labels, word.as_bytes()) {
            return Ok(labels[number].place);
        }
        if labels.is_empty() {
            return Err(Complaint::new(format!(in heap;
                "Procedure {name} has no label \"{shown}\"; it has none, so name a place by its number."
            )));
        }
        let all = Listed(
            procedure
                .labels
                .iter()
                .map(|label| label.name.as_str())
                .collect(heap)?,
        );
        Err(Complaint::new(format!(in heap;
            "Procedure {name} has no label \"{shown}\"; it has {all}."
        )))
    }

    // The number of the variable with this name: the shared ones first, then the procedure's own.
    fn variable(self, heap: Global, word: &str) -> Result<usize, Complaint> {
        let shared = self.names.shared.as_slice();
        let own = self.procedure.own.as_slice();
        if let Some(number) = find_variable(shared, own, word.as_bytes()) {
            return Ok(number);
        }
        let name = self.procedure.name.as_str();
        let shown = Word(word.as_bytes());
        let all = Listed(
            shared
                .iter()
                .chain(own.iter())
                .map(|variable| variable.as_str())
                .collect(heap)?,
        );
        Err(Complaint::new(format!(in heap;
            "Procedure {name} has no variable \"{shown}\"; it has {all}."
        )))
    }

    // The pattern with one more variable, as `held=1` gives it.
    fn narrow(self, heap: Global, pattern: Pattern, word: &str) -> Result<Pattern, Complaint> {
        let shown = Word(word.as_bytes());
        let Some((name, value)) = word.split_once('=') else {
            return Err(Complaint::new(format!(in heap;
                "\"{shown}\" gives no variable a value; write NAME=0 or NAME=1."
            )));
        };
        let variable = self.variable(heap, name)?;
        if pattern.value(variable).is_some() {
            return Err(Complaint::new(format!(in heap; "The variable {name} is given twice.")));
        }
        match value {
            "0" => Ok(pattern.with(variable, false)),
            "1" => Ok(pattern.with(variable, true)),
            _ => {
                Err(Complaint::new(format!(in heap;
                    "\"{shown}\" gives {name} no value; write {name}=0 or {name}=1."
                )))
            }
        }
    }
}

// What a query asks: `place` is PROCEDURE:LABEL or PROCEDURE:NUMBER, and `values` give variables values.
pub fn ask(
    heap: Global,
    names: &Names,
    place: &str,
    values: &[String],
) -> Result<Question, Complaint> {
    let Some((name, at)) = place.split_once(':') else {
        let shown = Word(place.as_bytes());
        return Err(Complaint::new(format!(in heap;
            "\"{shown}\" is no place; write PROCEDURE:LABEL or PROCEDURE:NUMBER."
        )));
    };
    let number = find_procedure(heap, names, name)?;
    let Some(procedure) = names.procedures.get(number) else {
        return Err(Complaint::Memory);
    };
    let scope = Scope { names, procedure };
    let place = scope.place(heap, at)?;
    let mut pattern = Pattern::ANY;
    for word in values {
        pattern = scope.narrow(heap, pattern, word.as_str())?;
    }
    Ok(Question {
        procedure: number,
        place,
        pattern,
    })
}
