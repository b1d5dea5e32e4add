// How many calls can wait at once, as `reach` tells it. Relies on `places` for the answer.
ghost use Rattle.report.specs.Waits.{Waits};

use crate::complaints::Complaint;
use crate::loaded::Loaded;
use crate::memory::MOST_MEMORY;
use places::{Deep, depth};
use std::alloc::Global;
use std::fmt;

// The greatest number, or that there is none, or the bytes of memory that telling it would need.
#[derive(Clone, Copy)]
pub enum Waiting {
    AtMost(u64),
    Endless,
    TooLarge(usize),
}

impl fmt::Display for Waiting {
    fn fmt<W: fmt::Write>(&self, f: &mut fmt::Formatter<W>) -> fmt::Result {
        match *self {
            Waiting::AtMost(most) => write!(f, "calls waiting at most: {most}"),
            Waiting::Endless => write!(f, "calls waiting: endless"),
            Waiting::TooLarge(bytes) => {
                write!(
                    f,
                    "calls waiting: not told, needs {bytes} bytes of memory, and {MOST_MEMORY} are the most"
                )
            }
        }
    }
}

impl Loaded<'_> {
    // How many calls of it can wait at once.
    pub fn calls_waiting(self, heap: Global) -> Result<Waiting, Complaint>
        ensures { Waits self.entry.bytes.now result }
    {
        let memory = self.memory();
        if memory > MOST_MEMORY {
            return Ok(Waiting::TooLarge(memory));
        }
        let mut work = vec![in heap; 0u32; self.header.work]?;
        let Deep::AtMost(most) = depth(self.bytes, work.as_mut_slice()) else {
            return Ok(Waiting::Endless);
        };
        Ok(Waiting::AtMost(most))
    }
}
