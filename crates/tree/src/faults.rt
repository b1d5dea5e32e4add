// Why a tree is not encoded: the limit that it does not keep, or want of memory.
ghost use Rattle.std.specs.Prelude.{◌≡◌};
ghost use Rattle.tree.specs.declared.faults.Fault.TheVariants.{Memory};

use crate::programs::{PlaceNo, ProcNo, VarNo};
use std::alloc::{AllocError, AllocFailed};

// A statement of a tree: its procedure, and its place there.
#[derive(Clone, Copy, PartialEq, Eq, Debug)]
pub struct Position {
    pub procedure: ProcNo,
    pub place: PlaceNo,
}

#[derive(Clone, Copy, PartialEq, Eq, Debug)]
pub enum Fault {
    TooManyShared(usize),
    NoProcedure,
    TooManyProcedures(usize),
    TooManyOwn {
        procedure: ProcNo,
        own: usize,
    },
    TooManyStatements {
        procedure: ProcNo,
        statements: usize,
    },
    NoSuchVariable {
        at: Position,
        var: VarNo,
    },
    NoSuchPlace {
        at: Position,
        place: PlaceNo,
    },
    NoSuchProcedure {
        at: Position,
        callee: ProcNo,
    },
    // How many bytes it would take, which `sizes` counts up to COUNTED.
    TooLong(usize),
    Memory,
}

// By hand, and twice, since what allocates fails in two ways: the `From` of a derive has no
// `from_gives`, and `Refused` tells want of memory from the other faults.
impl From<AllocError> for Fault {
    ghost from_gives = { λ _ r. r ≡ Memory };

    fn from(_error: AllocError) -> Fault {
        Fault::Memory
    }
}

impl<T: Drop> From<AllocFailed<T>> for Fault {
    ghost from_gives = { λ _ r. r ≡ Memory };

    fn from(_refused: AllocFailed<T>) -> Fault {
        Fault::Memory
    }
}
