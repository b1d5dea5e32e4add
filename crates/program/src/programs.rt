// Whole programs.
ghost use Rattle.std.specs.Prelude.{◌≡◌, ◌+◌, ◌*◌, ◌^◌, ◌≤◌, length};
ghost use Rattle.program.specs.Rows.{OneProgram};
ghost use Rattle.program.specs.Reading.{ReadProcs, ReadProgram};

use crate::bytes::read_number;
use crate::procedures::{MOST_VARIABLES, Procedure, read_procedure, table_size, values};
use crate::refusals::{Reason, Refusal};
use crate::steps::Scope;

// The most bytes and procedures that a program has.
pub const MOST_BYTES: usize = 8192;

pub const MOST_PROCEDURES: usize = 64;

// What is known of a program once it is read: its shared variables, its procedures, the bytes of its
// table, and the work words that deciding it wants.
#[derive(Clone, Copy, PartialEq, Eq, Debug)]
pub struct Header {
    pub shared: u8,
    pub procs: usize,
    pub table: usize,
    pub work: usize,
}

// What the methods ask of the numbers is in no ghost field: headers and procedures may be made of any.
impl Header {
    // What the steps of this procedure of the program may name.
    pub fn scope(self, procedure: Procedure) -> Scope
        ensures vars { result.vars ≡ self.shared + procedure.own }
        ensures last { result.last.0 ≡ procedure.steps }
        ensures procs { result.procs ≡ self.procs }
    {
        Scope::new(self.shared, procedure.own, procedure.steps, self.procs)
    }

    // How many values the shared variables can have.
    pub fn shared_values(self) -> usize
        requires { self.shared ≤ 6 }
        ensures { result ≡ 2 ^ self.shared }
    {
        values(self.shared)
    }

    // How many values the variables of this procedure, and the shared ones, can have: as many bytes has
    // each of its places in the table.
    pub fn width(self, procedure: Procedure) -> usize
        requires { (self.shared ≤ 6) × (procedure.own ≤ 6) }
        ensures { result ≡ 2 ^ (self.shared + procedure.own) }
    {
        values(self.shared + procedure.own)
    }

    // The bytes that this procedure has in the table.
    pub fn table_size(self, procedure: Procedure) -> usize
        requires { (self.shared ≤ 6) × (procedure.own ≤ 6) }
        ensures is { result ≡ (procedure.steps + 1) * 2 ^ (self.shared + procedure.own) }
        ensures small { result ≤ 2 ^ 20 }
    {
        table_size(self.shared, procedure.own, procedure.steps)
    }
}

// The work words that a program asks for whose table has so many bytes.
fn work_words(shared: u8, table: usize) -> usize
    requires { (shared ≤ 6) × (table ≤ 2 ^ 26) }
    ensures { result ≡ 4096 + table * (8 + 2 ^ shared) }
{
    4096 + table * (8 + values(shared))
}

// How many procedures were read, and the bytes of their tables.
#[derive(Clone, Copy)]
struct Tally {
    count: usize,
    table: usize,
}

// The procedures from byte 1 to the end, each of which may call those below `procs`.
#[tactic(auto, using(crate::proofs::ReadingProgram::procs_more))]
fn read_procedures(bytes: &[u8], shared: u8, procs: usize) -> Result<Tally, Refusal>
    requires { (1 ≤ length bytes.now) × (shared ≤ 6) }
    ensures { ReadProcs shared procs bytes.now 1 64 (record { count = 0; table = 0 }) result }
{
    let mut end = 1;
    let mut tally = Tally { count: 0, table: 0 };
    // no `for` over a walk: a walk ends where nothing can be read, and here it has to be said why
    while end < bytes.len() {
        if tally.count == MOST_PROCEDURES {
            return Err(Refusal {
                at: end,
                reason: Reason::TooManyProcedures,
            });
        }
        let found = read_procedure(bytes, end, shared, procs)?;
        let size = table_size(shared, found.own, found.steps);
        tally.count += 1;
        tally.table += size;
        end = found.end;
    }
    Ok(tally)
}

// The program that these bytes are.
#[tactic(auto, using(crate::proofs::Prefix::one_program, crate::proofs::ReadingProgram::no_first))]
pub fn read(bytes: &[u8]) -> Result<Header, Refusal>
    ensures reads { ReadProgram bytes.now result }
    ensures one { OneProgram }
{
    if bytes.len() > MOST_BYTES {
        return Err(Refusal {
            at: MOST_BYTES,
            reason: Reason::TooLong,
        });
    }
    let shared = read_number(bytes, 0, MOST_VARIABLES + 1, Reason::TooManyVariables)?;
    let counted = read_procedures(bytes, shared, MOST_PROCEDURES)?;
    if counted.count == 0 {
        return Err(Refusal {
            at: 1,
            reason: Reason::NoProcedure,
        });
    }
    let again = read_procedures(bytes, shared, counted.count)?;
    let work = work_words(shared, again.table);
    Ok(Header {
        shared,
        procs: again.count,
        table: again.table,
        work,
    })
}
