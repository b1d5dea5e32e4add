// The answer to a question: yes or no on the first line, then a sentence, and where variables were left open, the
// values that will do. Relies on `reached` for what is found.
ghost use Rattle.answers.specs.Replies.{Replied};

use crate::deciding::Decided;
use crate::matches::{Matches, Pattern};
use crate::reached::Question;
use crate::scopes::Scope;
use report::complaints::Complaint;
use report::verdicts::verdict;
use std::alloc::Global;
use std::fmt;
use text::names::Names;

// The variables that a pattern gives, as `held=1 note=0`.
#[derive(Clone, Copy)]
struct Assignment<'n> {
    scope: Scope<'n>,
    pattern: Pattern,
}

impl fmt::Display for Assignment<'_> {
    fn fmt<W: fmt::Write>(&self, f: &mut fmt::Formatter<W>) -> fmt::Result {
        let pattern = self.pattern;
        let shared = self.scope.names.shared.iter();
        let variables = shared.chain(self.scope.procedure.own.iter()).enumerate();
        let given = variables.filter_map(|(i, name)| Some((name, pattern.value(i)?)));
        for (i, (name, value)) in given.enumerate() {
            if i > 0 {
                f.write_str(" ")?;
            }
            let value = u8::from(value);
            write!(f, "{name}={value}")?;
        }
        Ok(())
    }
}

// What was asked, and what was found.
#[derive(Clone, Copy)]
struct Finding<'n, 'm> {
    scope: Scope<'n>,
    question: Question,
    matches: &'m Matches,
}

impl Finding<'_, '_> {
    // The first values that were found, a line each, and how many more there are.
    fn list<W: fmt::Write>(&self, f: &mut fmt::Formatter<W>) -> fmt::Result {
        let scope = self.scope;
        let mask = scope.all();
        for want in self.matches.first.iter().copied() {
            let pattern = Pattern { mask, want };
            let found = Assignment { scope, pattern };
            writeln!(f, "{found}")?;
        }
        let more = self.matches.count.saturating_sub(self.matches.first.len());
        if more > 0 {
            writeln!(f, "and {more} more")?;
        }
        Ok(())
    }
}

impl fmt::Display for Finding<'_, '_> {
    fn fmt<W: fmt::Write>(&self, f: &mut fmt::Formatter<W>) -> fmt::Result {
        let scope = self.scope;
        let pattern = self.question.pattern;
        let given = Assignment { scope, pattern };
        let who = if self.matches.any() { "A" } else { "No" };
        let place = self.question.place;
        let name = scope.procedure.name.as_str();
        let line = scope.procedure.lines.get(place).copied().unwrap_or(0);
        write!(
            f,
            "{who} run comes to place {place} of {name} (line {line})"
        )?;
        if pattern.mask != 0 {
            write!(f, " with {given}")?;
        }
        if !self.matches.any() {
            return f.write_str(", however deep its calls.\n");
        }
        if pattern.mask == scope.all() {
            return f.write_str(".\n");
        }
        f.write_str(":\n")?;
        self.list(f)
    }
}

// The answer to a question about a program that was decided, whose names are these.
pub fn reply(
    heap: Global,
    names: &Names,
    decided: &Decided,
    question: Question,
) -> Result<String, Complaint>
    ensures { Replied decided.now question result }
{
    let matches = decided.look(heap, question)?;
    let mut told = String::from_str(heap, verdict(matches.any()))?;
    let Some(procedure) = names.procedures.get(question.procedure) else {
        return Ok(told);
    };
    let finding = Finding {
        scope: Scope { names, procedure },
        question,
        matches: &matches,
    };
    let sentence = format!(in heap; "{finding}")?;
    told.push_str(sentence.as_str())?;
    Ok(told)
}
