//! Cases of the crates of data: elements of BER, keys, names, CSNs, changes, vectors, what a node
//! draws, the changelog, and lines of the script. The first word of a case names the crate's part, the second the call.
#![tactic(auto)]

mod ber;
mod csns;
mod draws;
mod items;
mod keys;
mod lines;
mod log;
mod names;
mod vectors;

use case_lines::{CaseFault, Fields, Subjects, run_cases};
use std::alloc::Global;
use std::process::ExitCode;

/// What a case may keep for the next one.
#[derive(Drop)]
struct Data {
    items: items::ItemCases,
    pending: draws::PendingCases,
    log: log::LogCases,
}

impl Subjects for Data {
    fn answer(
        &mut self,
        alloc: Global,
        subject: &str,
        fields: &mut Fields<'_>,
        told: &mut String,
    ) -> Result<(), CaseFault> {
        match subject {
            "ber" => ber::answer(alloc, fields, told),
            "key" => keys::answer(alloc, fields, told),
            "dn" => names::answer(alloc, fields, told),
            "line" => lines::answer(alloc, fields, told),
            "csn" => csns::answer(alloc, fields, told),
            "items" => self.items.answer(alloc, fields, told),
            "vector" => vectors::answer(alloc, fields, told),
            "generator" => draws::generator(fields, told),
            "pending" => self.pending.answer(alloc, fields, told),
            "log" => self.log.answer(alloc, fields, told),
            _ => Err(CaseFault::Subject),
        }
    }
}

fn make_data(alloc: Global) -> Result<Data, CaseFault> {
    let pending = draws::PendingCases::new(alloc)?;
    let log = log::LogCases::new(alloc)?;
    let items = items::ItemCases::new(alloc);
    Ok(Data {
        items,
        pending,
        log,
    })
}

fn main(rt: HostRuntime) -> ExitCode {
    match make_data(rt.alloc()) {
        Ok(mut data) => run_cases(&rt, &mut data),
        Err(_) => ExitCode::from(1),
    }
}
