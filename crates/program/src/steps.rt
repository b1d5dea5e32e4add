// Steps of a procedure, read one at a time.
ghost use Rattle.std.specs.Prelude.{◌≡◌, ◌+◌};
ghost use Rattle.program.specs.Reading.{ReadStep};

use crate::bytes::{read_byte, read_number};
use crate::expressions::read_expression;
use crate::kinds::StepKind;
use crate::refusals::{Reason, Refusal};

// The numbers here fit a byte. Those of a tree, which may be too large, are types of its own crate: one
// generic type for both would name a width wherever a number is named.

// A procedure's number: procedure 0 begins.
#[derive(Clone, Copy)]
pub struct ProcNo(pub u8);

// A place's number within its procedure.
#[derive(Clone, Copy)]
pub struct PlaceNo(pub u8);

// A variable's number: the shared ones first, then the procedure's own.
#[derive(Clone, Copy)]
pub struct VarNo(pub u8);

// An expression, by where it stands in the bytes: there is no heap here for a tree of it.
#[derive(Clone, Copy)]
pub struct ExprAt(pub usize);

#[derive(Clone, Copy)]
pub enum Step {
    Set { var: VarNo, expr: ExprAt },
    Open(VarNo),
    Go { place: PlaceNo, expr: ExprAt },
    Call(ProcNo),
    Return,
}

// A step that was read, and where it ends.
#[derive(Clone, Copy)]
pub struct Found {
    pub step: Step,
    pub end: usize,
}

// What the steps of a procedure may name: variables below `vars`, places up to `last`, the one
// behind the last step, and procedures below `procs`.
#[derive(Clone, Copy)]
pub struct Scope {
    pub vars: usize,
    pub last: PlaceNo,
    pub procs: usize,
}

impl Scope {
    // What the steps may name of a procedure with so many variables of its own and so many steps, where
    // so many variables are shared and there are so many procedures.
    pub fn new(shared: u8, own: u8, steps: u8, procs: usize) -> Scope
        ensures vars { result.vars ≡ shared + own }
        ensures last { result.last.0 ≡ steps }
        ensures procs { result.procs ≡ procs }
    {
        Scope {
            vars: usize::from(shared) + usize::from(own),
            last: PlaceNo(steps),
            procs,
        }
    }
}

// The bytes that steps begin with, by their kinds; matched as they stand, as those of expressions are.
const SET: u8 = StepKind::Set as u8;

const OPEN: u8 = StepKind::Open as u8;

const GO: u8 = StepKind::Go as u8;

const CALL: u8 = StepKind::Call as u8;

const RETURN: u8 = StepKind::Return as u8;

// The step at `at`.
pub fn read_step(bytes: &[u8], at: usize, scope: Scope) -> Result<Found, Refusal>
    ensures { ReadStep scope bytes.now at result }
{
    let kind = read_byte(bytes, at)?;
    match kind {
        SET => {
            let var = read_number(bytes, at + 1, scope.vars, Reason::NoSuchVariable)?;
            let end = read_expression(bytes, at + 2, scope.vars)?;
            Ok(Found {
                step: Step::Set {
                    var: VarNo(var),
                    expr: ExprAt(at + 2),
                },
                end,
            })
        }
        OPEN => {
            let open = read_number(bytes, at + 1, scope.vars, Reason::NoSuchVariable)?;
            Ok(Found {
                step: Step::Open(VarNo(open)),
                end: at + 2,
            })
        }
        GO => {
            let places = usize::from(scope.last.0) + 1;
            let place = read_number(bytes, at + 1, places, Reason::NoSuchPlace)?;
            let past = read_expression(bytes, at + 2, scope.vars)?;
            Ok(Found {
                step: Step::Go {
                    place: PlaceNo(place),
                    expr: ExprAt(at + 2),
                },
                end: past,
            })
        }
        CALL => {
            let callee = read_number(bytes, at + 1, scope.procs, Reason::NoSuchProcedure)?;
            Ok(Found {
                step: Step::Call(ProcNo(callee)),
                end: at + 2,
            })
        }
        RETURN => Ok(Found {
            step: Step::Return,
            end: at + 1,
        }),
        _ => Err(Refusal {
            at,
            reason: Reason::UnknownStep,
        }),
    }
}
