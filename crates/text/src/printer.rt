// The bytes of a program as a text: shared variables s0, s1 and so on, own ones v0, procedures p0, and
// a label L3 at place 3 where some step goes there. Parsed and encoded, the text gives the bytes again
// (tested for programs that have each kind of step and of expression), unless its parentheses nest
// deeper than the parser allows. Relies on `program` for reading bytes.
use program::kinds::ExpressionKind;
use program::procedures::Procedure;
use program::programs::{Header, read};
use program::steps::{Found, PlaceNo, Step, VarNo};
use program::walks::{Procedures, Steps};
use std::alloc::{AllocError, Global};
use std::fmt;

// An operator that waits for an operand: the one of `!`, the left one of `&`, or the right one, with
// whether it stands in parentheses. These are kept in a Vec: the plainer way, a function that calls
// itself for each operand, was tried, and fails at the deepest programs that this one prints, where it
// is not optimized: there is no room on the stack.
#[derive(Clone, Copy)]
enum Waiting {
    Not,
    Left { parens: bool },
    Right { parens: bool },
}

// The bytes of the expression that a step has, or none.
fn expr_row(bytes: &[u8], found: Found) -> &[u8] {
    match found.step {
        Step::Set { expr, .. } | Step::Go { expr, .. } => {
            bytes.get(expr.0..found.end).unwrap_or(&[])
        }
        _ => &[],
    }
}

// The statements that a step `Go` can be written as.
#[derive(Clone, Copy, PartialEq, Eq, Debug)]
enum Jump {
    Skip,
    Goto,
    Branch,
}

// How a step is written that goes from `place` to `target` if `row` holds.
fn written_as(place: u8, target: PlaceNo, row: &[u8]) -> Jump {
    let always = [u8::from(ExpressionKind::Yes)];
    if row != always.as_slice() {
        Jump::Branch
    } else if usize::from(target.0) == usize::from(place) + 1 {
        Jump::Skip
    } else {
        Jump::Goto
    }
}

// A variable by its number, of which those below `shared` are shared.
#[derive(Clone, Copy)]
struct Variable {
    number: u8,
    shared: u8,
}

impl fmt::Display for Variable {
    fn fmt<W: fmt::Write>(&self, f: &mut fmt::Formatter<W>) -> fmt::Result {
        if self.number < self.shared {
            let shared = self.number;
            write!(f, "s{shared}")
        } else {
            let own = self.number - self.shared;
            write!(f, "v{own}")
        }
    }
}

// A text that grows, of the program that was read from `bytes`.
#[derive(Drop)]
struct Printer<'b> {
    heap: Global,
    bytes: &'b [u8],
    header: Header,
    out: String,
}

impl Printer<'_> {
    fn word(&mut self, word: &str) -> Result<(), AllocError> {
        self.out.push_str(word)
    }

    fn variable(&self, var: VarNo) -> Variable {
        Variable {
            number: var.0,
            shared: self.header.shared,
        }
    }

    // Which places of a procedure want a label: those that a step goes to which is not written as
    // `skip`.
    fn list_targets(&self, procedure: Procedure) -> [bool; 256] {
        let mut labelled = [false; 256];
        let steps = Steps::new(self.bytes, procedure, self.header.scope(procedure));
        for (place, found) in (0..procedure.steps).zip(steps) {
            if let Step::Go { place: target, .. } = found.step {
                let row = expr_row(self.bytes, found);
                if written_as(place, target, row) != Jump::Skip {
                    labelled[usize::from(target.0)] = true;
                }
            }
        }
        labelled
    }

    // Goes on behind a whole operand: closes what it ends, up to an `&` that waits for its right one.
    fn close(&mut self, waiting: &mut Vec<Waiting>) -> Result<(), AllocError> {
        while let Some(operator) = waiting.pop() {
            match operator {
                Waiting::Not => {}
                Waiting::Left { parens } => {
                    waiting.push(Waiting::Right { parens })?;
                    return self.word(" & ");
                }
                Waiting::Right { parens: true } => self.word(")")?,
                Waiting::Right { parens: false } => {}
            }
        }
        Ok(())
    }

    // The expression that `row` is.
    fn expr(&mut self, row: &[u8]) -> Result<(), AllocError> {
        let mut waiting = Vec::new(self.heap);
        let mut bytes = row.iter();
        while let Some(first) = bytes.next() {
            match ExpressionKind::try_from(*first) {
                Ok(ExpressionKind::Yes) => {
                    self.word("1")?;
                    self.close(&mut waiting)?;
                }
                Ok(ExpressionKind::Var) => {
                    let variable = self.variable(VarNo(bytes.next().copied().unwrap_or(0)));
                    write!(self.out, "{variable}")?;
                    self.close(&mut waiting)?;
                }
                Ok(ExpressionKind::Not) => {
                    self.word("!")?;
                    waiting.push(Waiting::Not)?;
                }
                Ok(ExpressionKind::And) => {
                    let parens = matches!(
                        waiting.last(),
                        Some(Waiting::Not) | Some(Waiting::Right { .. })
                    );
                    if parens {
                        self.word("(")?;
                    }
                    waiting.push(Waiting::Left { parens })?;
                }
                Err(_) => {}
            }
        }
        Ok(())
    }

    // The step at `place`.
    fn step(&mut self, place: u8, found: Found) -> Result<(), AllocError> {
        let row = expr_row(self.bytes, found);
        match found.step {
            Step::Set { var, .. } => {
                let variable = self.variable(var);
                write!(self.out, "{variable} := ")?;
                self.expr(row)
            }
            Step::Open(var) => {
                let variable = self.variable(var);
                write!(self.out, "{variable} := *")
            }
            Step::Go { place: target, .. } => {
                let PlaceNo(number) = target;
                match written_as(place, target, row) {
                    Jump::Skip => self.word("skip"),
                    Jump::Goto => write!(self.out, "goto L{number}"),
                    Jump::Branch => {
                        self.word("if (")?;
                        self.expr(row)?;
                        write!(self.out, ") goto L{number}")
                    }
                }
            }
            Step::Call(callee) => {
                let number = callee.0;
                write!(self.out, "p{number}()")
            }
            Step::Return => self.word("return"),
        }
    }

    // `count` variables, whose names begin with `letter`.
    fn declaration(&mut self, indent: &str, letter: &str, count: u8) -> Result<(), AllocError> {
        if count == 0 {
            return Ok(());
        }
        write!(self.out, "{indent}decl {letter}0")?;
        for number in 1..count {
            write!(self.out, ", {letter}{number}")?;
        }
        self.word(";\n")
    }

    fn label(&mut self, labelled: &[bool; 256], place: u8) -> Result<(), AllocError> {
        if labelled[usize::from(place)] {
            write!(self.out, "L{place}:\n")?;
        }
        Ok(())
    }

    // The steps of a procedure, with their labels.
    fn body(&mut self, procedure: Procedure) -> Result<(), AllocError> {
        let labelled = self.list_targets(procedure);
        let steps = Steps::new(self.bytes, procedure, self.header.scope(procedure));
        for (place, found) in (0..procedure.steps).zip(steps) {
            self.label(&labelled, place)?;
            self.word("    ")?;
            self.step(place, found)?;
            self.word(";\n")?;
        }
        self.label(&labelled, procedure.steps)
    }

    // Procedure `number` of the program.
    fn procedure(&mut self, number: usize, procedure: Procedure) -> Result<(), AllocError> {
        write!(self.out, "void p{number}() begin\n")?;
        self.declaration("    ", "v", procedure.own)?;
        self.body(procedure)?;
        self.word("end\n")
    }
}

// The text of the program that `bytes` are, or none if they are no program.
pub fn print(heap: Global, bytes: &[u8]) -> Result<Option<String>, AllocError> {
    let Ok(header) = read(bytes) else {
        return Ok(None);
    };
    let mut printer = Printer {
        heap,
        bytes,
        header,
        out: String::new(heap),
    };
    printer.declaration("", "s", header.shared)?;
    for (number, procedure) in Procedures::new(bytes, header).enumerate() {
        if number > 0 || header.shared > 0 {
            printer.word("\n")?;
        }
        printer.procedure(number, procedure)?;
    }
    Ok(Some(printer.out))
}
