// Expressions: read, and evaluated where they stand in the bytes.
ghost use Rattle.program.specs.Reading.{ReadExpr};
ghost use Rattle.program.specs.Values.{Has, Evals};

use crate::bytes::{read_byte, read_number};
use crate::kinds::ExpressionKind;
use crate::refusals::{Reason, Refusal};
use crate::values::test_bit;

// The bytes that expressions begin with, by their kinds: a byte is matched as it stands, since reading is most of the work
// of a small program, and a match of the kind took twice the time.
const YES: u8 = ExpressionKind::Yes as u8;

const VAR: u8 = ExpressionKind::Var as u8;

const NOT: u8 = ExpressionKind::Not as u8;

const AND: u8 = ExpressionKind::And as u8;

// Where the expression at `at` ends, over variables below `vars`.
#[tactic(auto, using(crate::proofs::ReadingExpr::no_var, crate::proofs::ReadingExpr::is_not, crate::proofs::ReadingExpr::no_and, crate::proofs::ReadingExpr::is_and))]
pub fn read_expression(bytes: &[u8], at: usize, vars: usize) -> Result<usize, Refusal>
    ensures { ReadExpr vars bytes.now at result }
{
    let kind = read_byte(bytes, at)?;
    match kind {
        YES => Ok(at + 1),
        VAR => {
            let _var = read_number(bytes, at + 1, vars, Reason::NoSuchVariable)?;
            Ok(at + 2)
        }
        NOT => read_expression(bytes, at + 1, vars),
        AND => {
            let mid = read_expression(bytes, at + 1, vars)?;
            read_expression(bytes, mid, vars)
        }
        _ => Err(Refusal {
            at,
            reason: Reason::UnknownExpression,
        }),
    }
}

// What an expression says, and where it ends: both are always there, so this is no Option.
#[derive(Clone, Copy)]
pub struct Valued {
    pub holds: bool,
    pub end: usize,
}

// The value of the expression at `at`, where bit x of `values` is variable x.
pub fn evaluate(bytes: &[u8], at: usize, values: u32) -> Valued
    requires { Has 32 bytes.now at }
    ensures { Evals bytes.now at values result }
{
    let Ok(kind) = ExpressionKind::try_from(bytes[at]) else {
        unreachable()
    };
    match kind {
        ExpressionKind::Yes => Valued {
            holds: true,
            end: at + 1,
        },
        ExpressionKind::Var => Valued {
            holds: test_bit(values, u32::from(bytes[at + 1])),
            end: at + 2,
        },
        ExpressionKind::Not => {
            let part = evaluate(bytes, at + 1, values);
            Valued {
                holds: !part.holds,
                end: part.end,
            }
        }
        ExpressionKind::And => {
            let left = evaluate(bytes, at + 1, values);
            let right = evaluate(bytes, left.end, values);
            Valued {
                holds: left.holds & right.holds,
                end: right.end,
            }
        }
    }
}
