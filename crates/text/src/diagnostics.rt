// What is wrong with a text, and where. Each is shown as one sentence without the file's name. Relies
// on `tokens` for positions, and on `expressions`, `program` and `tree` for limits.
ghost use Rattle.std.specs.Prelude.{◌≡◌};
ghost use Rattle.text.specs.declared.diagnostics.Stop.TheVariants.{Memory};

use crate::expressions::{MOST_DEPTH, MOST_OPERATORS};
use crate::tokens::Spot;
use program::procedures::MOST_VARIABLES;
use program::programs::MOST_PROCEDURES;
use std::alloc::{AllocError, AllocFailed};
use std::fmt;
use tree::limits::MOST_STATEMENTS;

// What could stand where something else was found.
#[derive(Clone, Copy, PartialEq, Eq, Debug)]
pub enum Expected {
    Head,
    ProcedureName,
    VariableName,
    LabelName,
    Opening,
    Closing,
    CommaOrSemicolon,
    Semicolon,
    Begin,
    Statement,
    Goto,
    CallOrBecomes,
    Operand,
    OperatorOrClosing,
    OperatorOrSemicolon,
    ProcedureOrFinish,
}

impl fmt::Display for Expected {
    fn fmt<W: fmt::Write>(&self, f: &mut fmt::Formatter<W>) -> fmt::Result {
        f.write_str(match self {
            Expected::Head => "decl or void",
            Expected::ProcedureName => "the name of a procedure",
            Expected::VariableName => "the name of a variable",
            Expected::LabelName => "the name of a label",
            Expected::Opening => "\"(\"",
            Expected::Closing => "\")\"",
            Expected::CommaOrSemicolon => "\",\" or \";\"",
            Expected::Semicolon => "\";\"",
            Expected::Begin => "begin",
            Expected::Statement => "a statement or end",
            Expected::Goto => "goto",
            Expected::CallOrBecomes => "\":=\", \"(\" or \":\"",
            Expected::Operand => "a variable, 0, 1, \"!\" or \"(\"",
            Expected::OperatorOrClosing => "an operator or \")\"",
            Expected::OperatorOrSemicolon => "an operator or \";\"",
            Expected::ProcedureOrFinish => "void or the end of the text",
        })
    }
}

// What a name stands for.
#[derive(Clone, Copy, PartialEq, Eq, Debug)]
pub enum Thing {
    Variable,
    Label,
    Procedure,
}

impl fmt::Display for Thing {
    fn fmt<W: fmt::Write>(&self, f: &mut fmt::Formatter<W>) -> fmt::Result {
        f.write_str(match self {
            Thing::Variable => "variable",
            Thing::Label => "label",
            Thing::Procedure => "procedure",
        })
    }
}

// Where variables are declared: before the procedures, or in one.
#[derive(Clone, Copy, PartialEq, Eq, Debug)]
pub enum Level {
    Shared,
    Own,
}

#[derive(Drop)]
pub enum Wrong {
    Found {
        found: String,
        expected: Expected,
    },
    // The text ends where something has to stand.
    Ends(Expected),
    // A byte that is no character of ASCII, or one that is not printed.
    Stray(u8),
    // A second `=` or `!=` without parentheses.
    Chained,
    TooDeep,
    TooLong,
    // A name that is given twice.
    Taken {
        thing: Thing,
        name: String,
    },
    // A name that nothing has, and the nearest that something has.
    Unknown {
        thing: Thing,
        name: String,
        nearest: Option<String>,
    },
    TooManyVariables(Level),
    TooManyProcedures,
    TooManyStatements,
    NoProcedure,
}

// That nothing has such a name, and what has the nearest.
fn show_unknown<W: fmt::Write>(
    f: &mut fmt::Formatter<W>,
    thing: Thing,
    name: &str,
    nearest: Option<&String>,
) -> fmt::Result {
    write!(f, "no {thing} \"{name}\" here")?;
    match nearest {
        Some(known) => write!(f, "; did you mean \"{known}\"?"),
        None => Ok(()),
    }
}

impl fmt::Display for Wrong {
    fn fmt<W: fmt::Write>(&self, f: &mut fmt::Formatter<W>) -> fmt::Result {
        match self {
            Wrong::Found { found, expected } => write!(f, "found \"{found}\", expected {expected}"),
            Wrong::Ends(expected) => write!(f, "found the end of the text, expected {expected}"),
            Wrong::Stray(byte) => write!(f, "the byte {byte} is part of no program"),
            Wrong::Chained => f.write_str(
                "\"=\" and \"!=\" do not chain: put one of them in parentheses",
            ),
            Wrong::TooDeep => write!(f, "parentheses may stand at most {MOST_DEPTH} deep"),
            Wrong::TooLong => write!(
                f,
                "an expression may have at most {MOST_OPERATORS} operators"
            ),
            Wrong::Taken { thing, name } => write!(f, "there is a {thing} \"{name}\" already"),
            Wrong::Unknown {
                thing,
                name,
                nearest,
            } => show_unknown(f, *thing, name.as_str(), nearest.as_ref()),
            Wrong::TooManyVariables(Level::Shared) => write!(
                f,
                "there may be at most {MOST_VARIABLES} shared variables"
            ),
            Wrong::TooManyVariables(Level::Own) => write!(
                f,
                "a procedure may have at most {MOST_VARIABLES} variables of its own"
            ),
            Wrong::TooManyProcedures => write!(
                f,
                "there may be at most {MOST_PROCEDURES} procedures"
            ),
            Wrong::TooManyStatements => write!(
                f,
                "a procedure may have at most {MOST_STATEMENTS} statements"
            ),
            Wrong::NoProcedure => f.write_str("there is no procedure"),
        }
    }
}

#[derive(Drop)]
pub struct Diagnostic {
    pub line: usize,
    pub column: usize,
    pub wrong: Wrong,
}

impl fmt::Display for Diagnostic {
    fn fmt<W: fmt::Write>(&self, f: &mut fmt::Formatter<W>) -> fmt::Result {
        let line = self.line;
        let column = self.column;
        write!(f, "line {line}, column {column}: ")?;
        self.wrong.fmt(f)
    }
}

// Why parsing stops: something is wrong, or memory is short. An `Option` is no plainer: its `None` would
// mean the latter, and no `?` makes it of an allocator's error.
#[derive(Drop)]
pub enum Stop {
    Wrong(Diagnostic),
    Memory,
}

impl Stop {
    pub fn new(spot: Spot, wrong: Wrong) -> Stop {
        Stop::Wrong(Diagnostic {
            line: spot.line,
            column: spot.column,
            wrong,
        })
    }
}

// By hand: the derive of `thiserror` is no plainer, since it asks for a message of each case and for an
// error in `Memory`.
impl From<AllocError> for Stop {
    ghost from_gives = { λ _ r. r ≡ Memory };

    fn from(_error: AllocError) -> Stop {
        Stop::Memory
    }
}

impl<T: Drop> From<AllocFailed<T>> for Stop {
    ghost from_gives = { λ _ r. r ≡ Memory };

    fn from(_refused: AllocFailed<T>) -> Stop {
        Stop::Memory
    }
}
