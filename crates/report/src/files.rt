// A file that is to hold a program. Relies on `syntax` for the bytes that its text lists, and on `program` for
// reading these.
ghost use Rattle.report.specs.Files.{Loads};

use crate::complaints::Complaint;
use crate::loaded::Listed;
use program::programs;
use std::alloc::Global;
use syntax::decimal::read_decimal;

// The name of a file, and its text.
#[derive(Clone, Copy)]
pub(crate) struct File<'n, 't> {
    pub name: &'n str,
    pub text: &'t [u8],
}

impl File<'_, '_> {
    // The program that the file holds, or why it holds none.
    pub fn load(self, heap: Global) -> Result<Listed, Complaint>
        ensures { Loads self.entry.text.now result }
    {
        // Not by `map_err`: it was tried, and what the closure makes of `Fault::Memory` is not known behind it
        // (`returns-in_err-listing` stays open).
        let listing = match read_decimal(heap, self.text) {
            Ok(listing) => listing,
            Err(fault) => return Err(self.no_listing(heap, fault)),
        };
        let header = match programs::read(listing.bytes.as_slice()) {
            Ok(header) => header,
            Err(refusal) => return Err(self.no_program(heap, &listing, refusal)),
        };
        Ok(Listed { listing, header })
    }
}
