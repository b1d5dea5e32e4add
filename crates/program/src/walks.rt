// Walking through a program that was read: its procedures, and the steps of each, in order. Both walks
// end early only where what comes next can't be read, which in a program that was read is nowhere. Two walks
// and not a generic one, which would want a trait longer than the lines of `next` that they share.
ghost use Rattle.program.specs.Walks.{AtProcedure, AtStep};

use crate::procedures::{Procedure, read_procedure};
use crate::programs::Header;
use crate::steps::{Found, Scope, read_step};

// The procedures of a program: `left` of them, of which the first stands at `at`.
#[derive(Drop)]
pub struct Procedures<'b> {
    pub bytes: &'b [u8],
    pub header: Header,
    pub at: usize,
    pub left: usize,
}

impl<'b> Procedures<'b> {
    // All procedures of the program that was read as `header`, which follow its first byte.
    pub fn new(bytes: &'b [u8], header: Header) -> Procedures<'b>
        ensures { AtProcedure bytes.now header 0 1 result }
    {
        Procedures {
            bytes,
            header,
            at: 1,
            left: header.procs,
        }
    }
}

impl<'b> Iterator for Procedures<'b> {
    ghost use Rattle.std.specs.Iterator.{at_most};
    ghost use Rattle.program.specs.Walks.{GivesProcedure};

    type Item = Procedure;

    ghost next_gives = { GivesProcedure };

    ghost remaining = { λ s. at_most s.left };

    fn next(&mut self) -> Option<Procedure> {
        if self.left == 0 {
            return None;
        }
        let header = self.header;
        let procedure = read_procedure(self.bytes, self.at, header.shared, header.procs).ok()?;
        self.left -= 1;
        self.at = procedure.end;
        Some(procedure)
    }
}

// The steps of a procedure: `left` of them, of which the first stands at `at`.
#[derive(Drop)]
pub struct Steps<'b> {
    pub bytes: &'b [u8],
    pub scope: Scope,
    pub at: usize,
    pub left: u8,
}

impl<'b> Steps<'b> {
    // All steps of the procedure that was read as `procedure`, whose steps have this scope.
    pub fn new(bytes: &'b [u8], procedure: Procedure, scope: Scope) -> Steps<'b>
        ensures { AtStep bytes.now scope procedure.steps 0 procedure.first result }
    {
        Steps {
            bytes,
            scope,
            at: procedure.first,
            left: procedure.steps,
        }
    }
}

impl<'b> Iterator for Steps<'b> {
    ghost use Rattle.std.specs.Iterator.{at_most};
    ghost use Rattle.program.specs.Walks.{GivesStep};

    type Item = Found;

    ghost next_gives = { GivesStep };

    ghost remaining = { λ s. at_most s.left };

    fn next(&mut self) -> Option<Found> {
        if self.left == 0 {
            return None;
        }
        let found = read_step(self.bytes, self.at, self.scope).ok()?;
        self.left -= 1;
        self.at = found.end;
        Some(found)
    }
}
