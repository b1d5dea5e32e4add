// Single bytes of a program: what all other reading goes by. Places in the bytes are passed by value and not
// in a cursor that moves on, since a step keeps where its expression stands, and evaluating goes back there.
ghost use Rattle.program.specs.Reading.{ReadByte, ReadNumber, ReadKind};

use crate::refusals::{Reason, Refusal};

// The byte at `at`.
pub fn read_byte(bytes: &[u8], at: usize) -> Result<u8, Refusal>
    ensures { ReadByte bytes.now at result }
{
    bytes.get(at).copied().ok_or(Refusal {
        at,
        reason: Reason::EndsEarly,
    })
}

// The byte at `at`, which is to be below `limit`; `reason` is what is wrong where it isn't.
pub fn read_number(bytes: &[u8], at: usize, limit: usize, reason: Reason) -> Result<u8, Refusal>
    ensures { ReadNumber limit bytes.now at result }
{
    let number = read_byte(bytes, at)?;
    if usize::from(number) < limit {
        Ok(number)
    } else {
        Err(Refusal { at, reason })
    }
}

// The kind that the byte at `at` stands for.
pub fn read_kind<K: TryFrom<u8, Error = Reason>>(bytes: &[u8], at: usize) -> Result<K, Refusal>
    ensures { ReadKind K.try_from_gives bytes.now at result }
{
    let byte = read_byte(bytes, at)?;
    K::try_from(byte).map_err(|reason| Refusal { at, reason })
}
