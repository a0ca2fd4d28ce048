//! Carries out the scripts of files by the top call of the program, and compares how each ended and
//! its whole output with what the files say.
//!
//! A file is a line that says what it is, and blocks with an empty line before each. A block is
//!
//!     == what it shows
//!     words exec                  the words of the command line; `exec` if left out. A `|` at the end
//!                                 of this line and of the next ones is none of it
//!     pieces 1 5 4096             one run for each: the source hands over so many bytes at most
//!                                 in one call; 1, 5 and 4096 if left out
//!     reads 2                     the reads that fail, counted from 1; none if left out
//!     writes 3                    the writes that fail
//!     keeping 5                   how many bytes a write that fails still takes
//!     status 3 line 2: too long   the number and the text of the status
//!     --- script                  the lines of the script
//!     --- each                    where this part stands, each of its lines makes a script: the
//!                                 lines above and that line, which no line feed ends
//!     --- then                    where this part stands, each of those scripts is tried again
//!                                 with a line feed and these lines behind it
//!     --- output                  the lines of the output
//!
//! Of the lines of a script and of an output, one that begins with `%` stands for others
//! (`notation.rt`).
#![tactic(auto)]

mod block;
mod notation;
mod running;

use running::{Tally, judge_text};
use std::process::ExitCode;
use std::{env, fs, io};

/// Carries out the scripts of the file with this name.
fn judge_file(rt: &HostRuntime, name: &str) -> io::Result<Tally> {
    let text = fs::read_to_string(rt, name)?;
    let mut report = String::new(rt.alloc());
    let tally = judge_text(rt.alloc(), text.as_str(), &mut report)?;
    rt.print(report)?;
    Ok(tally)
}

/// Prints how many scripts a file has, and in how many runs they were carried out.
fn tell(rt: &HostRuntime, name: &str, tally: &Tally) -> io::Result<()> {
    let Tally { scripts, runs, .. } = *tally;
    println!(rt; "{name}: {scripts} scripts in {runs} runs")
}

/// Carries out the scripts of each file that the command line names, and gives how many runs differ.
fn judge_files(rt: &HostRuntime) -> io::Result<u64> {
    let mut differing = 0u64;
    for name in env::args(rt)?.skip(1) {
        let tally = judge_file(rt, name.as_str())?;
        tell(rt, name.as_str(), &tally)?;
        differing = differing.saturating_add(tally.differing);
    }
    Ok(differing)
}

fn main(rt: HostRuntime) -> io::Result<ExitCode> {
    let differing = judge_files(&rt)?;
    Ok(ExitCode::from(u8::from(differing > 0)))
}
