//! Cases of cases: what is read of a line, and which lines are told as not answered as they want.
#![tactic(auto)]

use case_lines::{CaseFault, Fields, Subjects, run_cases, tell_bytes, tell_text};
use std::alloc::Global;
use std::fmt::Write;
use std::process::ExitCode;

#[derive(Drop)]
struct Echo;

impl Subjects for Echo {
    fn answer(
        &mut self,
        alloc: Global,
        subject: &str,
        fields: &mut Fields<'_>,
        told: &mut String,
    ) -> Result<(), CaseFault> {
        match subject {
            "bytes" => tell_bytes(told, fields.bytes(alloc)?.as_slice()),
            "text" => tell_text(told, fields.bytes(alloc)?.as_slice()),
            "number" => number(fields, told),
            "word" => {
                told.push_str(fields.word()?)?;
                Ok(())
            }
            _ => Err(CaseFault::Subject),
        }
    }
}

fn number(fields: &mut Fields<'_>, told: &mut String) -> Result<(), CaseFault> {
    let number = fields.number()?;
    write!(told, "{number}")?;
    Ok(())
}

fn main(rt: HostRuntime) -> ExitCode {
    run_cases(&rt, &mut Echo)
}
