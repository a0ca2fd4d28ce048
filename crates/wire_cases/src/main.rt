//! Cases of the messages between suppliers and consumers: which bytes they have, what bytes are read as, and what
//! comes of a message with one byte damaged.
#![tactic(auto)]

mod damage;
mod read;
mod write;

use case_lines::{CaseFault, Fields, Subjects, run_cases};
use repl_wire::wire_laws;
use std::alloc::Global;
use std::process::ExitCode;

/// What is asked of messages. Nothing is kept from case to case.
#[derive(Drop)]
struct Wire;

impl Subjects for Wire {
    fn answer(
        &mut self,
        alloc: Global,
        subject: &str,
        fields: &mut Fields<'_>,
        told: &mut String,
    ) -> Result<(), CaseFault> {
        match subject {
            "start" => write::start(alloc, fields, told),
            "started" => write::started(alloc, fields, told),
            "end" => write::end(alloc, fields, told),
            "update" => write::update(alloc, fields, told),
            "read_start" => read::start(alloc, fields, told),
            "read_started" => read::started(alloc, fields, told),
            "read_end" => read::end(alloc, fields, told),
            "read_update" => read::update(alloc, fields, told),
            "damaged_end" => damage::end(alloc, fields, told),
            _ => Err(CaseFault::Subject),
        }
    }
}

fn main(rt: HostRuntime) -> ExitCode {
    wire_laws();
    run_cases(&rt, &mut Wire)
}
