// A program that was read, in bytes that are lent: most of this crate works on one. Relies on `program` for what
// is known of it, and on `syntax` for the bytes that a text lists.
ghost use Rattle.std.specs.Prelude.{◌≡◌, Ok};
ghost use Rattle.program.specs.Reading.{ReadProgram};

use crate::memory::needed;
use program::programs::Header;
use syntax::decimal::Listing;

// The bytes of a program, and what they say of it.
#[derive(Clone, Copy)]
pub struct Loaded<'b> {
    pub bytes: &'b [u8],
    pub header: Header,
    pub ghost read: { ∥ ReadProgram bytes.now (Ok header) ∥₁ },
}

impl Loaded<'_> {
    // The bytes of memory that deciding it needs.
    pub(crate) fn memory(self) -> usize {
        needed(self.header, self.bytes.len())
    }
}

// The bytes that a file lists, and what they say of the program that they are.
#[derive(Drop)]
pub(crate) struct Listed {
    pub listing: Listing,
    pub header: Header,
    pub ghost read: { ∥ ReadProgram listing.bytes.items (Ok header) ∥₁ },
}

impl Listed {
    // The program, in these bytes.
    pub fn program(&self) -> Loaded<'_>
        ensures bytes { result.bytes.now ≡ self.now.listing.bytes.items }
        ensures header { result.header ≡ self.now.header }
    {
        Loaded {
            bytes: self.listing.bytes.as_slice(),
            header: self.header,
        }
    }
}
