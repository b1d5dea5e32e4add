// A program at hand: what was read of it, and the nodes where its procedures begin.
ghost use Rattle.std.specs.Prelude.{◌≡◌, ◌+◌, ◌^◌, ◌<◌, ◌≤◌, length, slice_index};
ghost use Rattle.expansion.specs.Procs.{StepsOf};

use crate::nodes::Place;
use program::procedures::Procedure;
use program::programs::Header;
use program::walks::Steps;

// A program's bytes, what is known of it, and the node where each procedure begins. That the bytes are that program is
// asked by the functions that need it: as a field it would be asked of those too that write one procedure or node.
#[derive(Clone, Copy)]
pub struct Source<'b> {
    pub bytes: &'b [u8],
    pub header: Header,
    pub bases: &'b [u32],
}

impl<'b> Source<'b> {
    // The steps of a procedure that was read.
    pub fn steps(self, procedure: Procedure) -> Steps<'b>
        ensures { StepsOf self.entry procedure result }
    {
        Steps::new(self.bytes, procedure, self.header.scope(procedure))
    }

    // The first place of procedure `f`, which was read as `procedure`.
    pub fn first_place(self, f: usize, procedure: Procedure) -> Place
        requires few { (self.header.shared ≤ 6) × (procedure.own ≤ 6) }
        requires there { f < length self.bases.now }
        ensures { result ≡ record { base = slice_index self.entry.bases.now f; first = slice_index self.entry.bases.now f; width = 2 ^ (self.entry.header.shared + procedure.own); shared = 2 ^ self.entry.header.shared } }
    {
        let base = self.bases[f];
        Place {
            base,
            first: base,
            width: self.header.width(procedure) as u32,
            shared: self.header.shared_values() as u32,
        }
    }
}
