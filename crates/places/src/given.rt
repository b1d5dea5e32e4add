// A program that was read, in the bytes that are given.
ghost use Rattle.program.specs.Program.{Prog};
ghost use Rattle.expansion.specs.Programs.{Headed};

use program::programs::Header;

// The bytes, and what is known of the program that they are. The work words go beside it: a struct of both, with a ghost
// field for their room, was tried, and the borrow check covers no `Result` of it (a `&mut` in a struct with a ghost field).
#[derive(Clone, Copy)]
pub struct Program<'b> {
    pub bytes: &'b [u8],
    pub header: Header,
    ghost read: { ∥ ((g : Prog) × Headed bytes.now header g) ∥₁ },
}
