// The calls that decide programs: `know` tells every place that a program can be at, `depth` how many procedures can
// wait at once. The memory that they work in is lent. Relies on `program` for reading, on `expansion` for words, on
// `saturation` and `ranking` for the engine.
#![tactic(auto)]

ghost use Rattle.std.specs.Prelude.{length};
ghost use Rattle.places.specs.Says.{KnownPost, DeepPost};
ghost use Rattle.places.specs.Example.{Worked};

use accepting::{Refused, accept};
use measuring::measure;
use solving::tell;

mod accepting;
mod given;
mod measuring;
mod memory;
mod settling;
mod solving;

// What `know` answers. The users' interface asks for this enum by name, so it is no `Result`.
#[derive(Clone, Copy, PartialEq, Debug)]
pub enum Known {
    Told,
    NoProgram,
    OutFull,
    Few,
}

// Writes the table of the program that the bytes are: a byte for each procedure, place and values, 1 if
// some run comes there, 0 if none does. `Few`: it wants more work words; `NoProgram`: the bytes are none;
// `OutFull`: the table has more bytes than are lent; then the lent table is as it was. What the work
// words hold before does not matter.
pub fn know(program: &[u8], table: &mut [u8], work: &mut [u32]) -> Known
    ensures { KnownPost program.now table.old table.new (length work.old) result }
{
    match accept(program, work.len()) {
        Err(Refused::NoProgram) => Known::NoProgram,
        Err(Refused::FewWords) => Known::Few,
        Ok(read) => {
            let bytes = read.header.table;
            if table.len() < bytes {
                return Known::OutFull;
            }
            tell(read, &mut table[..bytes], work);
            Known::Told
        }
    }
}

// How many procedures can wait for the return of another at once; the one at work is not counted. The users' interface
// asks for this enum by name, so it is no `Result`.
#[derive(Clone, Copy, PartialEq, Debug)]
pub enum Deep {
    AtMost(u64),
    Endless,
    Unread,
    Short,
}

// How many procedures of the program that the bytes are can wait at once. `AtMost`: the greatest number;
// `Endless`: there is none; `Unread`: the bytes are no program; `Short`: it wants more work words. What the work
// words hold before does not matter.
pub fn depth(program: &[u8], work: &mut [u32]) -> Deep
    ensures { DeepPost program.now (length work.old) result }
{
    match accept(program, work.len()) {
        Err(Refused::NoProgram) => Deep::Unread,
        Err(Refused::FewWords) => Deep::Short,
        Ok(read) => match measure(read, work) {
            Some(most) => Deep::AtMost(most),
            None => Deep::Endless,
        },
    }
}

// The worked example of docs/FORMAT.md: two of its runs, and where their bytes stand, as theorems.
pub fn worked_example()
    ensures { Worked }
{}

#[cfg(test)]
mod tests;
