// Whether the bytes are a program, and whether there are as many work words as it wants.
ghost use Rattle.std.specs.Prelude.{◌≡◌, ◌<◌};
ghost use Rattle.places.specs.Accepting.{Accepted};
ghost use Rattle.places.specs.declared.accepting.Refused.TheVariants.{NoProgram};

use crate::given::Program;
use program::programs::read;
use program::refusals::Refusal;

// Why bytes and work words are refused.
#[derive(Clone, Copy, PartialEq, Debug)]
pub enum Refused {
    NoProgram,
    FewWords,
}

impl From<Refusal> for Refused {
    ghost from_gives = { λ _ refused. refused ≡ NoProgram };

    fn from(_refusal: Refusal) -> Refused {
        Refused::NoProgram
    }
}

// The program that the bytes are, if it wants no more than so many work words.
pub fn accept(bytes: &[u8], words: usize) -> Result<Program<'_>, Refused>
    ensures { Accepted bytes.now words result }
{
    let header = read(bytes)?;
    if words < header.work {
        return Err(Refused::FewWords);
    }
    Ok(Program { bytes, header })
}
