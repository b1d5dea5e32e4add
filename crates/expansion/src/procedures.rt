// The words of all nodes of a procedure.
ghost use Rattle.std.specs.Prelude.{ℕ, ◌*◌, ◌≤◌, length};
ghost use Rattle.program.specs.Program.{Prog, Proc};
ghost use Rattle.program.specs.Table.{total};
ghost use Rattle.expansion.specs.Procs.{ProcIs, ProcDone, StepsIs, StepsDone};

use crate::nodes::{Body, Place};
use crate::places::expand_place;
use program::procedures::Procedure;
use program::walks::Steps;

// Writes the nodes of the procedure with these steps, which begins at place `start`. Of the program's header nothing is
// asked: the scope of the steps is at hand. The words are lent, so a clause asks for their length.
pub fn expand_steps(body: Body, steps: Steps, start: Place, words: &mut [u32])
    requires { (g : Prog) × (f : ℕ) × (p : Proc) × StepsIs body.source steps start g f p × (4 * total g.shared g.procs ≤ length words.old) }
    ensures { StepsDone body.entry.source steps.entry start body.entry.callers words.old words.new }
{
    let mut place = start;
    for found in steps {
        expand_place(body, Some(found.step), place, words);
        place = place.next();
    }
    expand_place(body, None, place, words);
}

// Writes the nodes of the procedure that was read as `procedure`, which begins at place `start`.
pub fn expand_procedure(body: Body, procedure: Procedure, start: Place, words: &mut [u32])
    requires { (g : Prog) × (f : ℕ) × (p : Proc) × ProcIs body.source procedure start g f p × (4 * total g.shared g.procs ≤ length words.old) }
    ensures { ProcDone body.entry.source procedure start body.entry.callers words.old words.new }
{
    expand_steps(body, body.source.steps(procedure), start, words);
}
