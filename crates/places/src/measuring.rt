// From a program to how many procedures can wait at once.
ghost use Rattle.std.specs.Prelude.{◌≤◌, length};
ghost use Rattle.program.specs.Program.{Prog};
ghost use Rattle.places.specs.Says.{Measured};
ghost use Rattle.expansion.specs.Programs.{Headed};

use crate::given::Program;
use crate::settling::{MOST_STARTS, Saturated, settle};
use program::programs::MOST_PROCEDURES;
use ranking::rank;

// How many procedures of a program can wait at once: the greatest number, or none if any number can. There are as
// many work words as it wants. Of the sets, those of returns, which stand behind those of entries, give their words
// to count calls.
pub fn measure(program: Program, work: &mut [u32]) -> Option<u64>
    requires { program.header.work ≤ length work.old }
    ensures { (g : Prog) → Headed program.entry.bytes.now program.entry.header g → Measured g result }
{
    // two arrays here and in `tell`, lent to `settle`: without a heap it can't hand out arrays of its own
    let mut bases = [0u32; MOST_PROCEDURES];
    let mut starts = [0u32; MOST_STARTS];
    let Saturated {
        system,
        procedures,
        sets,
        level,
        next,
    } = settle(program, &mut bases, &mut starts, work);
    let (entries, counts) = sets.split_at_mut(2 * system.nodes);
    rank(system, procedures, entries, counts, level, next)
}
