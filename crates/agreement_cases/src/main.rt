//! Cases of sessions of a supplier over streams in memory that bring what its consumer answers. The first word of a case
//! names who says something, or that a session is run; the second says what.
#![tactic(auto)]

mod offered;
mod parties;
mod runs;
mod told;

use agreement_run::run_laws;
use case_lines::{CaseFault, Fields, Subjects, run_cases};
use offered::Offered;
use parties::Parties;
use std::alloc::Global;
use std::process::ExitCode;
use std::sync::Wait;

/// What the runtime is, and between whom the next sessions are.
#[derive(Drop)]
struct AgreementCases<'a, R> {
    rt: &'a R,
    parties: Parties,
}

impl<R: Wait> Subjects for AgreementCases<'_, R> {
    fn answer(
        &mut self,
        alloc: Global,
        subject: &str,
        fields: &mut Fields<'_>,
        told: &mut String,
    ) -> Result<(), CaseFault> {
        match subject {
            "supplier" => self.parties.supplier(alloc, fields),
            "consumer" => self.parties.consumer(alloc, fields),
            "run" => runs::answer(self.rt, alloc, &self.parties, fields, told),
            _ => Err(CaseFault::Subject),
        }
    }
}

fn main(rt: HostRuntime) -> ExitCode {
    run_laws::<Offered<'_>>();
    let parties = Parties::new(rt.alloc());
    run_cases(&rt, &mut AgreementCases { rt: &rt, parties })
}
