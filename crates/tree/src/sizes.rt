// How many bytes a tree takes, told before any is written: an operator can double its operands, so
// that a small tree can take more bytes than there are. Numbers stop at COUNTED.
ghost use Rattle.std.specs.Prelude.{◌≡◌, ℕ, ◌+◌, map, length};
ghost use Rattle.program.specs.Rows.{row_e, row_i, row_p, rows};
ghost use Rattle.tree.specs.Meaning.{meaning_e, meaning_i, steps_from, meaning_p, meaning};
ghost use Rattle.tree.specs.Sizes.{counted, row};

use crate::programs::{Expr, Procedure, Statement, Tree};

// More bytes than this are told as this many.
pub const COUNTED: usize = 1_000_000;

fn expr_size(expr: &Expr) -> usize
    ensures { result ≡ counted (length (row_e (meaning_e expr.now))) }
{
    let size = match expr {
        Expr::Yes => 1,
        Expr::No => 2,
        Expr::Var(_) => 2,
        Expr::Not(operand) => 1 + expr_size(operand),
        Expr::And(left, right) => 1 + expr_size(left) + expr_size(right),
        Expr::Or(left, right) => 4 + expr_size(left) + expr_size(right),
        Expr::Equal(left, right) => 7 + 2 * (expr_size(left) + expr_size(right)),
        Expr::Differ(left, right) => 8 + 2 * (expr_size(left) + expr_size(right)),
    };
    size.min(COUNTED)
}

// So many bytes and so many more.
fn add(bytes: usize, more: usize) -> usize
    ensures { result ≡ counted (bytes + more) }
{
    bytes.saturating_add(more).min(COUNTED)
}

// The bytes of a statement, at whatever place it stands.
fn statement_size(statement: &Statement) -> usize
    ensures { (place : ℕ) → result ≡ counted (length (row_i (meaning_i place statement.now))) }
{
    match statement {
        Statement::Skip => 3,
        Statement::Goto(_) => 3,
        Statement::Branch { cond, .. } => add(2, expr_size(cond)),
        Statement::Assign { value, .. } => add(2, expr_size(value)),
        Statement::Open(_) => 2,
        Statement::Call(_) => 2,
        Statement::Return => 1,
    }
}

fn body_size(body: &[Statement]) -> usize
    ensures { result ≡ counted (length (rows row_i (steps_from 0 body.now))) }
{
    body.iter().map(statement_size).fold(0, add)
}

fn procedure_size(procedure: &Procedure) -> usize
    ensures { result ≡ counted (length (row_p (meaning_p procedure.now))) }
{
    add(2, body_size(&procedure.body))
}

fn procedures_size(procedures: &[Procedure]) -> usize
    ensures { result ≡ counted (length (rows row_p (map meaning_p procedures.now))) }
{
    procedures.iter().map(procedure_size).fold(0, add)
}

// The bytes of a whole program.
pub(crate) fn tree_size(tree: &Tree) -> usize
    ensures { result ≡ counted (length (row (meaning tree.now))) }
{
    add(1, procedures_size(&tree.procedures))
}
