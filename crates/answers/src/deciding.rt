// A program that was decided: its bytes and its table. Relies on `report` for deciding it within the limit on memory.
ghost use Rattle.program.specs.Program.{Prog};
ghost use Rattle.answers.specs.Holding.{IsDecided};

use program::programs::{Header, read};
use report::complaints::Complaint;
use report::loaded::Loaded;
use std::alloc::Global;

// The bytes of a program, what is known of them, and the table.
#[derive(Drop)]
pub struct Decided {
    pub bytes: Vec<u8>,
    pub header: Header,
    pub table: Vec<u8>,
    pub ghost holds: { ∥ ((g : Prog) × IsDecided g bytes.items header table.items) ∥₁ },
}

impl Decided {
    ghost use Rattle.std.specs.Prelude.{◌≡◌};
    ghost use Rattle.program.specs.Rows.{Reads};
    ghost use Rattle.answers.specs.Deciding.{DecidedOf};

    // Decides the program that the bytes are; `file` is for the sentence of refusal.
    pub fn new(heap: Global, file: &str, bytes: Vec<u8>) -> Result<Decided, Complaint>
        requires { (g : Prog) × Reads bytes.items g }
        ensures { DecidedOf bytes.items result }
    {
        let Ok(header) = read(bytes.as_slice()) else {
            unreachable()
        };
        let program = Loaded {
            bytes: bytes.as_slice(),
            header,
        };
        let table = program.decide(heap, file)?;
        Ok(Decided {
            bytes,
            header,
            table,
        })
    }

    // The program, in these bytes.
    pub fn program(&self) -> Loaded<'_>
        ensures bytes { result.bytes.now ≡ self.now.bytes.items }
        ensures header { result.header ≡ self.now.header }
    {
        Loaded {
            bytes: self.bytes.as_slice(),
            header: self.header,
        }
    }
}
