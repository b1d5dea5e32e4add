// Which values of a place are reached, as its bytes of the table tell.
ghost use Rattle.std.specs.Prelude.{◌≡◌, ◌<◌, true, false, ◌≢◌, bit_and};
ghost use Rattle.answers.specs.Matching.{SomeOne, Matched};

use std::alloc::{AllocFailed, Global};

// How many values are listed at most.
pub const MOST_LISTED: usize = 8;

// Some variables as they should be: values fit if they have the bits of `mask` as `want` has them. As bits, since the
// values of a place are bits too: the number of its byte.
#[derive(Clone, Copy)]
pub struct Pattern {
    pub mask: usize,
    pub want: usize,
}

impl Pattern {
    // The one that all values fit.
    pub(crate) const ANY: Pattern = Pattern { mask: 0, want: 0 };

    // What it wants a variable to be, if it says.
    pub(crate) fn value(self, variable: usize) -> Option<bool> {
        let bit = bit_of(variable);
        if self.mask & bit == 0 {
            None
        } else {
            Some(self.want & bit != 0)
        }
    }

    // The same, with one more variable.
    pub(crate) fn with(self, variable: usize, value: bool) -> Pattern {
        let bit = bit_of(variable);
        Pattern {
            mask: self.mask | bit,
            want: if value { self.want | bit } else { self.want },
        }
    }
}

// The bit of a variable.
pub(crate) fn bit_of(variable: usize) -> usize {
    if variable < 64 { 1 << variable } else { 0 }
}

// The first values that fit and are reached, and how many there are in all, which may be more.
#[derive(Drop)]
pub struct Matches {
    pub first: Vec<usize>,
    pub count: usize,
}

impl Matches {
    // Whether there are some.
    pub(crate) fn any(&self) -> bool
        ensures yes { 0 < self.now.count → result ≡ true }
        ensures no { self.now.count ≡ 0 → result ≡ false }
    {
        self.count > 0
    }
}

// Whether values fit the pattern, and their byte is 1.
fn fits(byte: u8, values: usize, pattern: Pattern) -> bool
    ensures yes { result ≡ true → (byte ≡ 1) × (bit_and values pattern.mask ≡ pattern.want) }
    ensures no { result ≡ false → byte ≡ 1 → bit_and values pattern.mask ≢ pattern.want }
{
    byte == 1 && values & pattern.mask == pattern.want
}

// The values that fit the pattern, of those whose byte is 1.
pub fn matching(heap: Global, bytes: &[u8], pattern: Pattern) -> Result<Matches, AllocFailed<usize>>
    ensures { Matched bytes.now pattern result }
{
    let mut first = Vec::new(heap);
    let mut count: usize = 0;
    for (values, byte) in bytes.iter().enumerate() {
        if fits(*byte, values, pattern) {
            if count < MOST_LISTED {
                first.push(values)?;
            }
            count += 1;
        }
    }
    Ok(Matches { first, count })
}

// Whether a byte is 1.
pub fn is_reached(bytes: &[u8]) -> bool
    ensures yes { result ≡ true → SomeOne bytes.now }
    ensures no { result ≡ false → SomeOne bytes.now → ⊥ }
{
    bytes.contains(&1)
}
