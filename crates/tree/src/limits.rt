// Whether a tree keeps the limits of programs, but for their length in bytes. Each function says
// exactly whether what the tree means is in order, as `program` has it, and else the first fault.
ghost use Rattle.std.specs.Prelude.{◌≡◌, ◌<◌, ◌≤◌, true, false, map, length, MatchResult};
ghost use Rattle.program.specs.Rows.{OkE, OkP, Every};
ghost use Rattle.tree.specs.Limits.{Tells, InScope, Kept};
ghost use Rattle.tree.specs.Meaning.{meaning_e, meaning_i, steps_from, meaning_p, meaning};

use crate::faults::{Fault, Position};
use crate::programs::{Expr, PlaceNo, ProcNo, Procedure, Statement, Tree, VarNo};
use program::procedures::MOST_VARIABLES; // shared, and as many of a procedure's own
use program::programs::MOST_PROCEDURES;

// Of a procedure: a byte tells how many there are.
pub const MOST_STATEMENTS: usize = u8::MAX as usize;

// What the statements of a procedure may name: variables below `vars`, places up to `statements`,
// the one behind the last statement, and procedures below `procedures`. One type for this and for the
// `Scope` of `program` is no plainer: the places of that are bytes, and those of a tree not yet.
#[derive(Clone, Copy)]
pub(crate) struct Scope {
    pub vars: usize,
    pub statements: usize,
    pub procedures: usize,
}

// A statement's position, and what may be named there.
#[derive(Clone, Copy)]
struct Site {
    at: Position,
    scope: Scope,
}

// That a limit is kept; else the fault.
fn check(kept: bool, fault: Fault) -> Result<(), Fault>
    ensures { MatchResult result (λ _. kept ≡ true) (λ _. kept ≡ false) }
{
    if kept { Ok(()) } else { Err(fault) }
}

// There are at most so many; else the fault.
pub(crate) fn check_most(count: usize, most: usize, fault: Fault) -> Result<(), Fault>
    ensures { MatchResult result (λ _. count ≤ most) (λ _. most < count) }
{
    if count <= most { Ok(()) } else { Err(fault) }
}

// Lent and not copied: a copy would stand on the stack at each level of an expression.
impl Site {
    fn check_variable(&self, var: VarNo) -> Result<(), Fault>
        ensures { MatchResult result (λ _. var.0 < self.now.scope.vars) (λ _. self.now.scope.vars ≤ var.0) }
    {
        let at = self.at;
        check(var.0 < self.scope.vars, Fault::NoSuchVariable { at, var })
    }

    fn check_place(&self, place: PlaceNo) -> Result<(), Fault>
        ensures { MatchResult result (λ _. place.0 ≤ self.now.scope.statements) (λ _. self.now.scope.statements < place.0) }
    {
        let at = self.at;
        check(
            place.0 <= self.scope.statements,
            Fault::NoSuchPlace { at, place },
        )
    }

    fn check_callee(&self, callee: ProcNo) -> Result<(), Fault>
        ensures { MatchResult result (λ _. callee.0 < self.now.scope.procedures) (λ _. self.now.scope.procedures ≤ callee.0) }
    {
        let at = self.at;
        check(
            callee.0 < self.scope.procedures,
            Fault::NoSuchProcedure { at, callee },
        )
    }

    fn check_expr(&self, expr: &Expr) -> Result<(), Fault>
        ensures { Tells (OkE self.now.scope.vars (meaning_e expr.now)) result }
    {
        match expr {
            Expr::Yes | Expr::No => Ok(()),
            Expr::Var(var) => self.check_variable(*var),
            Expr::Not(operand) => self.check_expr(operand),
            Expr::And(left, right)
            | Expr::Or(left, right)
            | Expr::Equal(left, right)
            | Expr::Differ(left, right) => {
                self.check_expr(left)?;
                self.check_expr(right)
            }
        }
    }

    // A statement that stands within its procedure.
    fn check_statement(&self, statement: &Statement) -> Result<(), Fault>
        requires { self.now.at.place.0 < self.now.scope.statements }
        ensures { Tells (InScope self.now.scope (meaning_i self.now.at.place.0 statement.now)) result }
    {
        match statement {
            Statement::Skip | Statement::Return => Ok(()),
            Statement::Goto(place) => self.check_place(*place),
            Statement::Branch { cond, place } => {
                self.check_place(*place)?;
                self.check_expr(cond)
            }
            Statement::Assign { var, value } => {
                self.check_variable(*var)?;
                self.check_expr(value)
            }
            Statement::Open(var) => self.check_variable(*var),
            Statement::Call(callee) => self.check_callee(*callee),
        }
    }
}

fn check_body(body: &[Statement], scope: Scope, procedure: ProcNo) -> Result<(), Fault>
    requires { length body.now ≤ scope.statements }
    ensures { Tells (Every (InScope scope) (steps_from 0 body.now)) result }
{
    for (i, statement) in body.iter().enumerate() {
        let place = PlaceNo(i);
        let at = Position { procedure, place };
        Site { at, scope }.check_statement(statement)?;
    }
    Ok(())
}

// A procedure of the tree.
fn check_procedure(tree: &Tree, number: ProcNo, procedure: &Procedure) -> Result<(), Fault>
    requires { tree.now.shared ≤ 6 }
    ensures { Tells (OkP tree.now.shared (length tree.now.procedures.items) (meaning_p procedure.now)) result }
{
    let own = procedure.own;
    let too_many_own = Fault::TooManyOwn {
        procedure: number,
        own,
    };
    check_most(own, MOST_VARIABLES, too_many_own)?;
    let statements = procedure.body.len();
    let too_many_statements = Fault::TooManyStatements {
        procedure: number,
        statements,
    };
    check_most(statements, MOST_STATEMENTS, too_many_statements)?;
    let scope = Scope {
        vars: tree.shared + own,
        statements,
        procedures: tree.procedures.len(),
    };
    check_body(&procedure.body, scope, number)
}

fn check_procedures(tree: &Tree) -> Result<(), Fault>
    requires { tree.now.shared ≤ 6 }
    ensures { Tells (Every (OkP tree.now.shared (length tree.now.procedures.items)) (map meaning_p tree.now.procedures.items)) result }
{
    for (i, procedure) in tree.procedures.iter().enumerate() {
        check_procedure(tree, ProcNo(i), procedure)?;
    }
    Ok(())
}

// The number of shared variables and of procedures, and each procedure.
pub(crate) fn check_tree(tree: &Tree) -> Result<(), Fault>
    ensures { Tells (Kept (meaning tree.now)) result }
{
    let shared = tree.shared;
    check_most(shared, MOST_VARIABLES, Fault::TooManyShared(shared))?;
    check(!tree.procedures.is_empty(), Fault::NoProcedure)?;
    let count = tree.procedures.len();
    check_most(count, MOST_PROCEDURES, Fault::TooManyProcedures(count))?;
    check_procedures(tree)
}
