// The bytes of a tree that keeps the limits, written behind what a Vec holds. Each function says that
// it adds exactly the row of what its part of the tree means, as `program` has it. Where memory
// fails, nothing is said of what was added. The limits show that each number fits its byte, so these are
// written by `as u8`: a `try_from` would add a refusal that cannot come.
ghost use Rattle.std.specs.Prelude.{map, OnOk};
ghost use Rattle.program.specs.Rows.{row_e, row_i, row_p, rows, OkE, OkI, OkP, Every};
ghost use Rattle.tree.specs.Adds.{Adds};
ghost use Rattle.tree.specs.Meaning.{equal1, meaning_e, meaning_i, steps_from, meaning_p};

use crate::programs::{Expr, Procedure, Statement};
use program::kinds::{ExpressionKind, StepKind};
use std::alloc::AllocError;

// The first bytes of expressions and steps, as `program` reads them.
const YES: u8 = ExpressionKind::Yes as u8;

const VAR: u8 = ExpressionKind::Var as u8;

const NOT: u8 = ExpressionKind::Not as u8;

const AND: u8 = ExpressionKind::And as u8;

const SET: u8 = StepKind::Set as u8;

const OPEN: u8 = StepKind::Open as u8;

const GO: u8 = StepKind::Go as u8;

const CALL: u8 = StepKind::Call as u8;

const RETURN: u8 = StepKind::Return as u8;

// Left equals right.
#[tactic(auto, using(crate::proofs::Sizing::some_bytes))]
#[cycle(write_equal_write_expr)]
fn write_equal(out: &mut Vec<u8>, left: &Expr, right: &Expr) -> Result<(), AllocError>
    requires { (OkE 12 (meaning_e left.now)) × (OkE 12 (meaning_e right.now)) }
    ensures { OnOk result (Adds (row_e (equal1 (meaning_e left.now) (meaning_e right.now))) out.old.items out.new.items) }
{
    out.extend_from_slice(&[AND, NOT, AND])?; // not (left and not right), and
    write_expr(out, left)?;
    out.push(NOT)?;
    write_expr(out, right)?;
    out.extend_from_slice(&[NOT, AND, NOT])?; // not (not left and right)
    write_expr(out, left)?;
    write_expr(out, right)
}

#[cycle(write_equal_write_expr)]
fn write_expr(out: &mut Vec<u8>, expr: &Expr) -> Result<(), AllocError>
    requires { OkE 12 (meaning_e expr.now) }
    ensures { OnOk result (Adds (row_e (meaning_e expr.now)) out.old.items out.new.items) }
{
    match expr {
        Expr::Yes => out.push(YES)?,
        Expr::No => out.extend_from_slice(&[NOT, YES])?,
        Expr::Var(var) => out.extend_from_slice(&[VAR, var.0 as u8])?,
        Expr::Not(operand) => {
            out.push(NOT)?;
            write_expr(out, operand)?;
        }
        Expr::And(left, right) => {
            out.push(AND)?;
            write_expr(out, left)?;
            write_expr(out, right)?;
        }
        Expr::Or(left, right) => {
            out.extend_from_slice(&[NOT, AND, NOT])?; // not (not left and not right)
            write_expr(out, left)?;
            out.push(NOT)?;
            write_expr(out, right)?;
        }
        Expr::Equal(left, right) => write_equal(out, left, right)?,
        Expr::Differ(left, right) => {
            out.push(NOT)?;
            write_equal(out, left, right)?;
        }
    }
    Ok(())
}

// The statement at `place`.
fn write_statement(out: &mut Vec<u8>, statement: &Statement, place: usize) -> Result<(), AllocError>
    requires { OkI 12 255 64 (meaning_i place statement.now) }
    ensures { OnOk result (Adds (row_i (meaning_i place statement.now)) out.old.items out.new.items) }
{
    match statement {
        Statement::Skip => out.extend_from_slice(&[GO, place as u8 + 1, YES]),
        Statement::Goto(target) => out.extend_from_slice(&[GO, target.0 as u8, YES]),
        Statement::Branch {
            cond,
            place: target,
        } => {
            out.extend_from_slice(&[GO, target.0 as u8])?;
            write_expr(out, cond)
        }
        Statement::Assign { var, value } => {
            out.extend_from_slice(&[SET, var.0 as u8])?;
            write_expr(out, value)
        }
        Statement::Open(var) => out.extend_from_slice(&[OPEN, var.0 as u8]),
        Statement::Call(callee) => out.extend_from_slice(&[CALL, callee.0 as u8]),
        Statement::Return => out.extend_from_slice(&[RETURN]),
    }
}

fn write_body(out: &mut Vec<u8>, body: &[Statement]) -> Result<(), AllocError>
    requires { Every (OkI 12 255 64) (steps_from 0 body.now) }
    ensures { OnOk result (Adds (rows row_i (steps_from 0 body.now)) out.old.items out.new.items) }
{
    for (i, statement) in body.iter().enumerate() {
        write_statement(out, statement, i)?;
    }
    Ok(())
}

fn write_procedure(out: &mut Vec<u8>, procedure: &Procedure) -> Result<(), AllocError>
    requires { OkP 6 64 (meaning_p procedure.now) }
    ensures { OnOk result (Adds (row_p (meaning_p procedure.now)) out.old.items out.new.items) }
{
    let statements = procedure.body.len() as u8;
    out.extend_from_slice(&[procedure.own as u8, statements])?;
    write_body(out, &procedure.body)
}

pub fn write_procedures(out: &mut Vec<u8>, procedures: &[Procedure]) -> Result<(), AllocError>
    requires { Every (OkP 6 64) (map meaning_p procedures.now) }
    ensures { OnOk result (Adds (rows row_p (map meaning_p procedures.now)) out.old.items out.new.items) }
{
    for procedure in procedures {
        write_procedure(out, procedure)?;
    }
    Ok(())
}
