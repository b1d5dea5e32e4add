// The byte form of a program as text: decimal numbers from 0 to 255, with blanks and line ends
// between them, where `#` begins a comment that runs up to the end of its line. The text need not be
// UTF-8. Relies on std alone.
ghost use Rattle.std.specs.Prelude.{◌≡◌, ℕ, MatchResult};
ghost use Rattle.syntax.specs.Decimal.{Number, ListsWritten};
ghost use Rattle.syntax.specs.Answers.{Answers};
ghost use Rattle.syntax.specs.declared.decimal.Fault.TheVariants.{Memory};

use crate::words::Words;
use std::alloc::{AllocFailed, Global};

// The numbers of a text, and the line of each, where the first line is line 1: two lists, since what
// reads a program takes its bytes as one slice.
#[derive(Drop)]
pub struct Listing {
    pub bytes: Vec<u8>,
    pub lines: Vec<usize>,
}

// Where a word stands: its line, its first byte and the byte after its last.
#[derive(Clone, Copy, PartialEq, Eq, Debug)]
pub struct Place {
    pub line: usize,
    pub start: usize,
    pub end: usize,
}

// Why a text lists no bytes.
#[derive(Clone, Copy, PartialEq, Eq, Debug)]
pub enum Fault {
    NoNumber(Place),
    TooLarge(Place),
    Memory,
}

// By hand: the `From` of a derive has no `from_gives`, and the contracts tell want of memory from the
// other faults.
impl<T: Drop> From<AllocFailed<T>> for Fault {
    ghost from_gives = { λ _ r. r ≡ Memory };

    fn from(_refused: AllocFailed<T>) -> Fault {
        Fault::Memory
    }
}

// The number that the word at `place` is.
fn number(word: &[u8], place: Place) -> Result<u8, Fault>
    ensures { MatchResult result (λ n. Number word.now n) (λ _. (n : ℕ) → Number word.now n → ⊥) }
{
    // One pass, and no `all` before a `fold`: reading its words is most of the work on a long text. A value above 255 stays
    // above it, however many digits follow: 256 stands for all of them.
    let mut value: u32 = 0;
    for digit in word {
        if !digit.is_ascii_digit() {
            return Err(Fault::NoNumber(place));
        }
        value = (value * 10 + u32::from(*digit - b'0')).min(256);
    }
    u8::try_from(value).map_err(|_| Fault::TooLarge(place))
}

// The bytes that `text` lists.
pub fn read_decimal(heap: Global, text: &[u8]) -> Result<Listing, Fault>
    ensures { Answers text.now result }
{
    let mut bytes = Vec::new(heap);
    let mut lines = Vec::new(heap);
    for (place, word) in Words::new(text) {
        bytes.push(number(word, place)?)?;
        lines.push(place.line)?;
    }
    Ok(Listing { bytes, lines })
}

// What is written as decimal numbers with a space after each is listed as it was: a law of the
// form, with nothing to compute.
#[tactic(auto, using(crate::proofs::Writing::lists_written))]
pub fn lists_written()
    ensures { ListsWritten }
{}

#[cfg(test)]
mod tests {
    use super::*;
    use std::test::Fail;

    #[test]
    fn lists(rt: HostRuntime) -> Result<(), Fail> {
        let cases: [(&str, &[u8], &[usize]); 6] = [
            ("", &[], &[]),
            ("# 7 and\r\n\t # 8", &[], &[]),
            ("0 255", &[0, 255], &[1, 1]),
            (
                "007\t1\r\n0000000000000000000000009",
                &[7, 1, 9],
                &[1, 1, 2],
            ),
            ("12#3\n\n4# 5\n", &[12, 4], &[1, 3]),
            ("1 # 2\n# 3\n4\n", &[1, 4], &[1, 3]),
        ];
        for (text, bytes, lines) in cases {
            let listing = read_decimal(rt.alloc(), text.as_bytes())?;
            assert_eq!(rt; listing.bytes.as_slice(), bytes, "{}", text);
            assert_eq!(rt; listing.lines.as_slice(), lines, "{}", text);
        }
        Ok(())
    }

    fn place(line: usize, start: usize, end: usize) -> Place {
        Place { line, start, end }
    }

    #[test]
    fn refuses(rt: HostRuntime) {
        let cases = [
            ("1 x2\n", Fault::NoNumber(place(1, 2, 4))),
            ("1\n2 -3", Fault::NoNumber(place(2, 4, 6))),
            ("256#x", Fault::TooLarge(place(1, 0, 3))),
            (
                "\n 99999999999999999999999",
                Fault::TooLarge(place(2, 2, 25)),
            ),
            ("999x", Fault::NoNumber(place(1, 0, 4))),
        ];
        for (text, fault) in cases {
            assert_eq!(rt;
                read_decimal(rt.alloc(), text.as_bytes()).err(),
                Some(fault),
                "{}",
                text
            );
        }
    }
}
