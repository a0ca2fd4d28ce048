//! The files that the command line names.

use crate::judge::{Subjects, judge_text};
use std::process::ExitCode;
use std::{env, fs, io};

/// Asks the cases of each file that the command line names, in order. Prints a line for each case
/// that is not answered as it wants, then for each file how many cases it has, and at the end how
/// many there are in all. The exit status is 0 where each case is answered as it wants, and else 1.
pub fn run_cases<S: Subjects>(rt: &HostRuntime, subjects: &mut S) -> ExitCode {
    match run_files(rt, subjects) {
        Ok(0) => ExitCode::from(0),
        Ok(_) => ExitCode::from(1),
        Err(error) => {
            // Where standard error takes nothing, the number still tells.
            let _ = eprintln!(rt; "{error}");
            ExitCode::from(1)
        }
    }
}

/// How many cases of the files are not answered as they want.
fn run_files<S: Subjects>(rt: &HostRuntime, subjects: &mut S) -> io::Result<u64> {
    let mut cases = 0u64;
    let mut differing = 0u64;
    for name in env::args(rt)?.skip(1) {
        let text = fs::read_to_string(rt, name.as_str())?;
        let mut report = String::new(rt.alloc());
        let tally = judge_text(
            rt.alloc(),
            name.as_str(),
            text.as_str(),
            subjects,
            &mut report,
        )?;
        cases = cases.saturating_add(tally.cases);
        differing = differing.saturating_add(tally.differing);
        rt.print(report)?;
        let count = tally.cases;
        println!(rt; "{name}: {count} cases")?;
    }
    println!(rt; "in all: {cases} cases")?;
    Ok(differing)
}
