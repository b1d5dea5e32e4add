// From a program to its table.
ghost use Rattle.std.specs.Prelude.{◌≡◌, ◌+◌, ◌*◌, ◌<◌, ◌≤◌, length};
ghost use Rattle.program.specs.Program.{Prog};
ghost use Rattle.places.specs.Solving.{Tells, Written, Parts};
ghost use Rattle.places.specs.Says.{Table};
ghost use Rattle.expansion.specs.Programs.{Headed};

use crate::given::Program;
use crate::settling::{MOST_STARTS, Saturated, settle};
use program::programs::MOST_PROCEDURES;
use saturation::bits::is_empty;

// 1 if node `n` has entries, 0 if not.
fn byte_of(sets: &[u32], n: usize) -> u8
    requires { 2 * n + 1 < length sets.now }
    ensures { Tells sets.now n result }
{
    u8::from(!is_empty(sets, n))
}

// Writes a byte for each node from `base` on: 1 if it has entries, 0 if not.
fn write_part(sets: &[u32], base: usize, part: &mut [u8])
    requires { 2 * (base + length part.old) ≤ length sets.now }
    ensures { Written sets.now base part.new (length part.old) }
{
    for (i, byte) in part.iter_mut().enumerate() {
        *byte = byte_of(sets, base + i);
    }
}

// Writes the table, procedure by procedure: the bytes of procedure f are those from `bases[f]` on. One
// pass over all nodes would write the same: the parts stay since must-fail/write_table.edit ends each where it begins.
pub fn write_table(sets: &[u32], bases: &[u32], table: &mut [u8])
    requires parts { Parts bases.now (length bases.now) (length table.old) }
    requires long { 2 * length table.old ≤ length sets.now }
    ensures { Written sets.now 0 table.new (length table.old) }
{
    let mut end = table.len();
    for base in bases.iter().rev() {
        // `as`, since `usize` has no `From<u32>`
        let from = *base as usize;
        write_part(sets, from, &mut table[from..end]);
        end = from;
    }
}

// Tells the table of a program, in a slice that is as long as it. There are as many work words as it wants.
pub fn tell(program: Program, table: &mut [u8], work: &mut [u32])
    requires room { program.header.work ≤ length work.old }
    requires long { length table.old ≡ program.header.table }
    ensures { (g : Prog) → Headed program.entry.bytes.now program.entry.header g → Table g table.new }
{
    // two arrays here and in `measure`, lent to `settle`: without a heap it can't hand out arrays of its own
    let mut bases = [0u32; MOST_PROCEDURES];
    let mut starts = [0u32; MOST_STARTS];
    let Saturated {
        procedures,
        sets,
        ..
    } = settle(program, &mut bases, &mut starts, work);
    write_table(sets, procedures.bases, table);
}
