// reach FILE tells of the program that FILE holds, and reach FILE PROCEDURE PLACE VALUES whether it can be
// there with those values, or they say in one sentence why they cannot. Relies on `report` for all that is
// printed.
#![tactic(auto)]

use report::arguments::{file_argument, query_arguments, usage};
use report::complaints::Complaint;
use report::queries::answer;
use report::refused::unreadable;
use report::summaries::summary;
use std::process::ExitCode;
use std::{env, fs, io};

fn run(rt: &HostRuntime) -> Result<String, Complaint> {
    let heap = rt.alloc();
    let args: Vec<String> = match env::args(rt) {
        Ok(args) => args.collect(heap)?,
        Err(_) => return Err(usage(heap, "The arguments are not UTF-8")),
    };
    let file = file_argument(heap, args.as_slice())?;
    let asked = query_arguments(heap, args.as_slice())?;
    let text = match fs::read(rt, file) {
        Ok(text) => text,
        Err(error) => return Err(unreadable(heap, file, error.kind())),
    };
    match asked {
        Some(query) => answer(heap, file, text.as_slice(), query),
        None => summary(heap, file, text.as_slice()),
    }
}

// A complaint is printed once, and the status is 1: an `Err` from here would be printed too.
fn main(rt: HostRuntime) -> io::Result<ExitCode> {
    match run(&rt) {
        Ok(text) => {
            rt.print(text)?;
            Ok(ExitCode::SUCCESS)
        }
        Err(complaint) => {
            rt.eprintln(complaint)?;
            Ok(ExitCode::FAILURE)
        }
    }
}
