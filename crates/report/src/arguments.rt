// The arguments of a program that takes one file, and with it a query or none. Relies on `queries` for
// what the words of a query say.
ghost use Rattle.std.specs.Prelude.{◌++◌, codes};
ghost use Rattle.report.specs.Arguments.{OneFile};
ghost use Rattle.report.specs.Complaints.{Said};

use crate::complaints::Complaint;
use crate::queries::Query;
use std::alloc::Global;

// What is wrong with the arguments, and what they should be.
pub fn usage(heap: Global, problem: &str) -> Complaint
    ensures { Said result (problem.now ++ codes "; usage: reach FILE [PROCEDURE PLACE VALUES].") }
{
    Complaint::new(format!(in heap; "{problem}; usage: reach FILE [PROCEDURE PLACE VALUES]."))
}

// The one file that is named after the program's own name, alone or before the three words of a query. Each has an arm
// of its own, so that it shows where one of them alone is wrong.
pub fn file_argument(heap: Global, args: &[String]) -> Result<&str, Complaint>
    ensures { OneFile args.now result }
{
    match args {
        [_, file] => Ok(file.as_str()),
        [_, file, _, _, _] => Ok(file.as_str()),
        [] | [_] => Err(usage(heap, "No file is named")),
        [_, _, _] | [_, _, _, _] => Err(usage(heap, "Too few arguments are given")),
        _ => Err(usage(heap, "Too many arguments are given")),
    }
}

// The query behind the file, if there is one.
pub fn query_arguments(heap: Global, args: &[String]) -> Result<Option<Query>, Complaint> {
    match args {
        [_, _, procedure, place, values] => {
            Ok(Some(Query::new(heap, procedure.as_str(), place.as_str(), values.as_str())?))
        }
        _ => Ok(None),
    }
}

#[cfg(test)]
mod tests {
    use super::*;
    use crate::complaints::shown;
    use std::test::Fail;

    #[test]
    fn files(rt: HostRuntime) -> Result<(), Fail> {
        let cases = [
            (
                "",
                "No file is named; usage: reach FILE [PROCEDURE PLACE VALUES].",
            ),
            (
                "reach",
                "No file is named; usage: reach FILE [PROCEDURE PLACE VALUES].",
            ),
            ("reach ring.txt", "ring.txt"),
            (
                "reach ring.txt 1 3",
                "Too few arguments are given; usage: reach FILE [PROCEDURE PLACE VALUES].",
            ),
            ("reach ring.txt 1 3 2", "ring.txt"),
            (
                "reach ring.txt 1 3 2 more",
                "Too many arguments are given; usage: reach FILE [PROCEDURE PLACE VALUES].",
            ),
        ];
        for (line, expected) in cases {
            let mut args = Vec::new(rt.alloc());
            for word in line.split_whitespace() {
                args.push(String::from_str(rt.alloc(), word)?)?;
            }
            let outcome = file_argument(rt.alloc(), args.as_slice());
            assert_eq!(rt; shown(rt.alloc(), outcome)?.as_str(), expected);
        }
        Ok(())
    }
}
