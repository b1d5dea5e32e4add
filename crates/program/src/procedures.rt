// Procedures of a program.
ghost use Rattle.std.specs.Prelude.{◌≡◌, ◌+◌, ◌*◌, ◌^◌, ◌≤◌, length};
ghost use Rattle.program.specs.Reading.{ReadSteps, ReadProc};

use crate::bytes::{read_byte, read_number};
use crate::refusals::{Reason, Refusal};
use crate::steps::{Scope, read_step};

// The most variables that are shared, and that a procedure has of its own.
pub const MOST_VARIABLES: usize = 6;

// A procedure that was read: how many variables it has of its own, how many steps, where the first
// of these stands and where the last one ends.
#[derive(Clone, Copy)]
pub struct Procedure {
    pub own: u8,
    pub steps: u8,
    pub first: usize,
    pub end: usize,
}

// How many values so many variables can have.
pub fn values(variables: u8) -> usize
    requires { variables ≤ 12 }
    ensures { result ≡ 2 ^ variables }
{
    1usize << variables
}

// The bytes that a procedure has in the table: for each place, up to the one behind the last step,
// one for each of the values of its variables.
#[tactic(auto, using(crate::proofs::Sizes::part_small))]
pub fn table_size(shared: u8, own: u8, steps: u8) -> usize
    requires { (shared ≤ 6) × (own ≤ 6) }
    ensures is { result ≡ (steps + 1) * 2 ^ (shared + own) }
    ensures small { result ≤ 2 ^ 20 }
{
    (usize::from(steps) + 1) * values(shared + own)
}

// Where `count` steps from `at` on end.
#[tactic(auto, using(crate::proofs::ReadingProc::steps_more))]
fn read_steps(bytes: &[u8], at: usize, count: u8, scope: Scope) -> Result<usize, Refusal>
    requires { at ≤ length bytes.now }
    ensures { ReadSteps scope bytes.now count at result }
{
    let mut end = at;
    // a `try_fold` would be the same `?` in a closure
    for _i in 0..count {
        let found = read_step(bytes, end, scope)?;
        end = found.end;
    }
    Ok(end)
}

// The procedure at `at` of a program with `shared` shared variables and `procs` procedures.
pub fn read_procedure(
    bytes: &[u8],
    at: usize,
    shared: u8,
    procs: usize,
) -> Result<Procedure, Refusal>
    ensures { ReadProc shared procs bytes.now at result }
{
    let own = read_number(bytes, at, MOST_VARIABLES + 1, Reason::TooManyVariables)?;
    let steps = read_byte(bytes, at + 1)?;
    let scope = Scope::new(shared, own, steps, procs);
    let end = read_steps(bytes, at + 2, steps, scope)?;
    Ok(Procedure {
        own,
        steps,
        first: at + 2,
        end,
    })
}
