// Why a tree is not encoded, as a sentence with the names and lines of the text that it came from.
// Relies on `tree` for the faults, and on `names`.
use crate::names::Names;
use program::procedures::MOST_VARIABLES;
use program::programs::{MOST_BYTES, MOST_PROCEDURES};
use std::fmt;
use tree::faults::{Fault, Position};
use tree::limits::MOST_STATEMENTS;
use tree::programs::ProcNo;
use tree::sizes::COUNTED;

// A fault of the tree that a text with these names was parsed to.
#[derive(Clone, Copy)]
pub struct Refusal<'a> {
    pub fault: Fault,
    pub names: &'a Names,
}

// The sentence is what the result shows.
pub fn refused(fault: Fault, names: &Names) -> Refusal<'_> {
    Refusal { fault, names }
}

// A procedure by its name and the line of that, or by its number if it has none.
#[derive(Clone, Copy)]
struct Named<'a> {
    procedure: ProcNo,
    names: &'a Names,
}

impl fmt::Display for Named<'_> {
    fn fmt<W: fmt::Write>(&self, f: &mut fmt::Formatter<W>) -> fmt::Result {
        let number = self.procedure.0;
        match self.names.procedures.get(number) {
            Some(found) => {
                let name = found.name.as_str();
                let line = found.line;
                write!(f, "line {line}: procedure \"{name}\"")
            }
            None => write!(f, "procedure {number}"),
        }
    }
}

// A statement by its line and its procedure's name, or by numbers.
#[derive(Clone, Copy)]
struct Located<'a> {
    at: Position,
    names: &'a Names,
}

impl fmt::Display for Located<'_> {
    fn fmt<W: fmt::Write>(&self, f: &mut fmt::Formatter<W>) -> fmt::Result {
        let number = self.at.procedure.0;
        let place = self.at.place.0;
        let Some(found) = self.names.procedures.get(number) else {
            return write!(f, "procedure {number}, place {place}");
        };
        let name = found.name.as_str();
        match found.lines.get(place) {
            Some(line) => write!(f, "line {line}, in procedure \"{name}\""),
            None => write!(f, "procedure \"{name}\", place {place}"),
        }
    }
}

// That there are more of such things in a program than may be.
fn show_too_many<W: fmt::Write>(
    f: &mut fmt::Formatter<W>,
    count: usize,
    things: &str,
    most: usize,
) -> fmt::Result {
    write!(f, "there are {count} {things}, and may be at most {most}")
}

impl Refusal<'_> {
    // That a procedure has more of such things than it may.
    fn show_too_large<W: fmt::Write>(
        &self,
        f: &mut fmt::Formatter<W>,
        procedure: ProcNo,
        count: usize,
        things: &str,
        most: usize,
    ) -> fmt::Result {
        let names = self.names;
        let procedure = Named { procedure, names };
        write!(
            f,
            "{procedure} has {count} {things}, and may have at most {most}"
        )
    }

    // That a statement names such a thing, and there is none of this number.
    fn show_missing<W: fmt::Write>(
        &self,
        f: &mut fmt::Formatter<W>,
        at: Position,
        thing: &str,
        number: usize,
    ) -> fmt::Result {
        let names = self.names;
        let statement = Located { at, names };
        write!(f, "{statement}: there is no {thing} {number}")
    }
}

impl fmt::Display for Refusal<'_> {
    fn fmt<W: fmt::Write>(&self, f: &mut fmt::Formatter<W>) -> fmt::Result {
        match self.fault {
            Fault::TooManyShared(count) => {
                show_too_many(f, count, "shared variables", MOST_VARIABLES)
            }
            Fault::NoProcedure => f.write_str("there is no procedure"),
            Fault::TooManyProcedures(count) => {
                show_too_many(f, count, "procedures", MOST_PROCEDURES)
            }
            Fault::TooManyOwn { procedure, own } => {
                self.show_too_large(f, procedure, own, "variables of its own", MOST_VARIABLES)
            }
            Fault::TooManyStatements {
                procedure,
                statements,
            } => self.show_too_large(f, procedure, statements, "statements", MOST_STATEMENTS),
            Fault::NoSuchVariable { at, var } => self.show_missing(f, at, "variable", var.0),
            Fault::NoSuchPlace { at, place } => self.show_missing(f, at, "place", place.0),
            Fault::NoSuchProcedure { at, callee } => {
                self.show_missing(f, at, "procedure", callee.0)
            }
            Fault::TooLong(bytes) if bytes >= COUNTED => write!(
                f,
                "the program takes a million bytes or more, and may take at most {MOST_BYTES}"
            ),
            Fault::TooLong(bytes) => write!(
                f,
                "the program takes {bytes} bytes, and may take at most {MOST_BYTES}"
            ),
            Fault::Memory => f.write_str("there is not enough memory"),
        }
    }
}
