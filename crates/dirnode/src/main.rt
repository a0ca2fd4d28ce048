//! The program: it makes the real source and sink, calls the top call, and tells how it ended.
#![tactic(auto)]

use dir_top::{Status, exec_main};
use io_edge::{StdSink, StdSource};
use std::io::Write;
use std::process::ExitCode;
use std::{env, io};

/// The words of the command line without the program's own name.
fn words(rt: &HostRuntime) -> io::Result<Vec<String>> {
    Ok(env::args(rt)?.skip(1).collect(rt.alloc())?)
}

/// Carries out the script on standard input.
fn run(rt: &HostRuntime) -> Status {
    let Ok(words) = words(rt) else {
        return Status::NoMemory;
    };
    let mut source = StdSource::new(rt.reader());
    let mut sink = StdSink::new(io::writer(rt));
    exec_main(rt.alloc(), words.as_slice(), &mut source, &mut sink)
}

/// Tells on standard error how the run ended, if anything is to be told.
fn tell(rt: &HostRuntime, status: &Status) -> io::Result<()> {
    let mut error = rt.stderr();
    match status.text(rt.alloc()) {
        Ok(text) if text.is_empty() => Ok(()),
        Ok(text) => {
            error.write_all(text.as_slice())?;
            error.write_all(b"\n")
        }
        Err(_) => error.write_all(b"no memory\n"),
    }
}

fn main(rt: HostRuntime) -> ExitCode {
    let status = run(&rt);
    // Where standard error takes nothing, the number still tells.
    let _ = tell(&rt, &status);
    ExitCode::from(status.number())
}
