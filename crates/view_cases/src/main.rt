//! Cases of views: lists of changes, in several orders, and what each view of them shows.
#![tactic(auto)]

mod grown;
mod questions;
mod shown;

use case_lines::{CaseFault, Fields, Subjects, run_cases};
use case_views::{Taken, example_suffix};
use plain_view::PlainView;
use repl_data::Suffix;
use std::alloc::Global;
use std::process::ExitCode;

/// The changes so far, and the view that questions are asked of.
#[derive(Drop)]
struct Views {
    taken: Taken,
    suffix: Suffix,
    view: PlainView,
}

impl Subjects for Views {
    fn answer(
        &mut self,
        alloc: Global,
        subject: &str,
        fields: &mut Fields<'_>,
        told: &mut String,
    ) -> Result<(), CaseFault> {
        match subject {
            "begin" => {
                self.taken = Taken::new(alloc);
                Ok(())
            }
            "change" => self.taken.take(alloc, fields, told),
            "shown" => shown::orders(alloc, &self.suffix, &self.taken, fields, told),
            "grown" => grown::orders(alloc, &self.suffix, &self.taken, fields, told),
            "view" => {
                self.view = shown::view(alloc, &self.suffix, &self.taken, fields.word()?)?;
                shown::counts(told, &self.view)
            }
            "known" => questions::known(&self.view, fields, told),
            _ => questions::answer(&self.view, alloc, subject, fields, told),
        }
    }
}

/// The views of the suffix `dc=example`, without changes.
fn without_changes(alloc: Global) -> Result<Views, CaseFault> {
    let suffix = example_suffix(alloc)?;
    let taken = Taken::new(alloc);
    let view = shown::view(alloc, &suffix, &taken, "-")?;
    Ok(Views {
        taken,
        suffix,
        view,
    })
}

fn main(rt: HostRuntime) -> ExitCode {
    match without_changes(rt.alloc()) {
        Ok(mut views) => run_cases(&rt, &mut views),
        Err(_) => ExitCode::from(2),
    }
}
