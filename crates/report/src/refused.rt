// The sentence for a file that cannot be read or holds no program: which byte is wrong, on which
// line, and why. Relies on `program` for the reasons and on `syntax` for the faults of a text.
ghost use Rattle.std.specs.Prelude.{◌≡◌, ◌-◌, ◌<◌, ◌≤◌, ◌++◌, length, codes, slice_index, slice_index_or};
ghost use Rattle.std.specs.declared.io.ErrorKind.TheVariants.{NotFound};
ghost use Rattle.report.specs.Complaints.{Said};

use crate::complaints::Complaint;
use crate::files::File;
use program::refusals::{Reason, Refusal};
use std::alloc::Global;
use std::fmt;
use std::io::ErrorKind;
use syntax::decimal::{Fault, Listing, Place};

// A word of a text as a sentence shows it: a byte that cannot be printed is shown as `?`, and of a
// long word only the beginning is shown.
#[derive(Clone, Copy)]
pub struct Word<'a>(pub &'a [u8]);

impl Word<'_> {
    const LONGEST: usize = 20;
}

impl fmt::Display for Word<'_> {
    fn fmt<W: fmt::Write>(&self, f: &mut fmt::Formatter<W>) -> fmt::Result {
        for b in self.0.iter().take(Self::LONGEST) {
            f.write_char(if b.is_ascii_graphic() {
                char::from(*b)
            } else {
                '?'
            })?;
        }
        if self.0.len() > Self::LONGEST {
            f.write_str("...")?;
        }
        Ok(())
    }
}

// What is wrong with a program: with one byte, whose value stands between two texts, or on the whole.
enum Claim {
    Byte(&'static str, &'static str),
    Whole(&'static str),
}

impl From<Reason> for Claim {
    fn from(reason: Reason) -> Claim {
        match reason {
            Reason::TooLong => Claim::Whole("it comes to more than 8192 bytes"),
            Reason::EndsEarly => Claim::Whole("it ends early"),
            Reason::TooManyVariables => Claim::Byte(
                "asks for ",
                " variables, and there may be at most 6",
            ),
            Reason::NoSuchVariable => Claim::Byte("names variable ", ", which is not there"),
            Reason::UnknownStep => Claim::Byte("is ", ", which is no kind of step"),
            Reason::UnknownExpression => Claim::Byte("is ", ", which is no kind of expression"),
            Reason::NoSuchPlace => Claim::Byte("names place ", ", which is not there"),
            Reason::NoSuchProcedure => Claim::Byte("names procedure ", ", which is not there"),
            Reason::TooManyProcedures => Claim::Whole("it comes to more than 64 procedures"),
            Reason::NoProcedure => Claim::Whole("it ends without a procedure"),
        }
    }
}

// The line of the byte at `at`; past the last byte, the last line that has one, or line 1.
fn line_of(lines: &[usize], at: usize) -> usize
    ensures inside { at < length lines.now → result ≡ slice_index lines.now at }
    ensures past { length lines.now ≤ at → result ≡ slice_index_or lines.now (length lines.now - 1) 1 }
{
    lines.get(at).or(lines.last()).copied().unwrap_or(1)
}

// Why `file` cannot be read.
pub fn unreadable(heap: Global, file: &str, kind: ErrorKind) -> Complaint
    ensures { kind ≡ NotFound → Said result (codes "There is no file " ++ file.now ++ codes ".") }
{
    match kind {
        ErrorKind::NotFound => Complaint::new(format!(in heap; "There is no file {file}.")),
        ErrorKind::OutOfMemory => Complaint::Memory,
        _ => Complaint::new(format!(in heap; "The file {file} cannot be read: {kind}.")),
    }
}

// The word that stands at `place`.
fn word_at(text: &[u8], place: Place) -> Word<'_> {
    Word(text.get(place.start..place.end).unwrap_or(b""))
}

impl File<'_, '_> {
    // Why its text lists no bytes.
    pub fn no_listing(&self, heap: Global, fault: Fault) -> Complaint
        ensures { fault ≡ Fault.Memory → result ≡ Complaint.Memory }
    {
        let name = self.name;
        match fault {
            Fault::NoNumber(place) => {
                let line = place.line;
                let word = word_at(self.text, place);
                Complaint::new(format!(in heap;
                    "Line {line} of {name} has \"{word}\", which is no number."
                ))
            }
            Fault::TooLarge(place) => {
                let line = place.line;
                let word = word_at(self.text, place);
                Complaint::new(format!(in heap;
                    "Line {line} of {name} has {word}, which is above 255."
                ))
            }
            Fault::Memory => Complaint::Memory,
        }
    }

    // Why the bytes of `listing`, which its text lists, are no program.
    pub fn no_program(&self, heap: Global, listing: &Listing, refusal: Refusal) -> Complaint {
        let name = self.name;
        let at = refusal.at;
        let line = line_of(listing.lines.as_slice(), at);
        match Claim::from(refusal.reason) {
            Claim::Byte(before, after) => {
                let byte = listing.bytes.get(at).copied().unwrap_or(0);
                Complaint::new(format!(in heap;
                    "{name} is no program: byte {at} (line {line}) {before}{byte}{after}."
                ))
            }
            Claim::Whole(what) => {
                Complaint::new(format!(in heap;
                    "{name} is no program: at byte {at} (line {line}) {what}."
                ))
            }
        }
    }
}

#[cfg(test)]
mod tests {
    use super::*;
    use std::test::Fail;
    use syntax::decimal::read_decimal;

    #[test]
    fn programs(rt: HostRuntime) -> Result<(), Fail> {
        let file = File {
            name: "f",
            text: b"9 0 1\n3 5\n\n1 64\n",
        };
        let listing = read_decimal(rt.alloc(), file.text)?;
        let cases = [
            (
                7,
                Reason::TooLong,
                "f is no program: at byte 7 (line 4) it comes to more than 8192 bytes.",
            ),
            (
                7,
                Reason::EndsEarly,
                "f is no program: at byte 7 (line 4) it ends early.",
            ),
            (
                7,
                Reason::NoProcedure,
                "f is no program: at byte 7 (line 4) it ends without a procedure.",
            ),
            (
                5,
                Reason::TooManyProcedures,
                "f is no program: at byte 5 (line 4) it comes to more than 64 procedures.",
            ),
            (
                0,
                Reason::TooManyVariables,
                "f is no program: byte 0 (line 1) asks for 9 variables, and there may be at most 6.",
            ),
            (
                4,
                Reason::NoSuchVariable,
                "f is no program: byte 4 (line 2) names variable 5, which is not there.",
            ),
            (
                6,
                Reason::UnknownStep,
                "f is no program: byte 6 (line 4) is 64, which is no kind of step.",
            ),
            (
                6,
                Reason::UnknownExpression,
                "f is no program: byte 6 (line 4) is 64, which is no kind of expression.",
            ),
            (
                3,
                Reason::NoSuchPlace,
                "f is no program: byte 3 (line 2) names place 3, which is not there.",
            ),
            (
                1,
                Reason::NoSuchProcedure,
                "f is no program: byte 1 (line 1) names procedure 0, which is not there.",
            ),
        ];
        for (at, reason, sentence) in cases {
            let complaint = file.no_program(rt.alloc(), &listing, Refusal { at, reason });
            assert_eq!(rt; complaint.to_string(rt.alloc())?.as_str(), sentence);
        }
        Ok(())
    }

    #[test]
    fn files(rt: HostRuntime) -> Result<(), Fail> {
        let cases = [
            (ErrorKind::NotFound, "There is no file f."),
            (
                ErrorKind::PermissionDenied,
                "The file f cannot be read: permission denied.",
            ),
            (ErrorKind::OutOfMemory, "There is not enough memory."),
        ];
        for (kind, sentence) in cases {
            assert_eq!(rt;
                unreadable(rt.alloc(), "f", kind)
                    .to_string(rt.alloc())?
                    .as_str(),
                sentence
            );
        }
        Ok(())
    }
}
