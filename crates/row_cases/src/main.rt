//! Cases of rows, their keepers, stamped entries, and where bytes come from and go to. The first word
//! of a case names the crate's part, the second the call.
#![tactic(auto)]

mod edges;
mod keepers;
mod rows;
mod stamped;

use case_lines::{CaseFault, Fields, Subjects, run_cases};
use keepers::KeeperCases;
use std::alloc::Global;
use std::process::ExitCode;

/// What a case may keep for the next one.
#[derive(Drop)]
struct RowCases {
    keeper: KeeperCases,
}

impl Subjects for RowCases {
    fn answer(
        &mut self,
        alloc: Global,
        subject: &str,
        fields: &mut Fields<'_>,
        told: &mut String,
    ) -> Result<(), CaseFault> {
        match subject {
            "row" => rows::answer(alloc, fields, told),
            "keeper" => self.keeper.answer(alloc, fields, told),
            "stamp" => stamped::answer(alloc, fields, told),
            "edge" => edges::answer(alloc, fields, told),
            _ => Err(CaseFault::Subject),
        }
    }
}

fn main(rt: HostRuntime) -> ExitCode {
    let keeper = KeeperCases::new(rt.alloc());
    run_cases(&rt, &mut RowCases { keeper })
}
