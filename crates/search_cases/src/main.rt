//! Cases of searches: the truth of filters, and what a search answers.
#![tactic(auto)]

mod answered;
mod closed;
mod filters;
mod requests;
mod tell;
mod truths;

use case_lines::{CaseFault, Fields, Subjects, run_cases};
use case_views::{Taken, example_suffix};
use repl_data::{Change, Items, Suffix, VectorText};
use std::alloc::Global;
use std::process::ExitCode;

/// The changes so far, those of them of which the view is that is searched, and the texts of the update vector.
#[derive(Drop)]
struct Searches {
    taken: Taken,
    suffix: Suffix,
    picked: Items<Change>,
    vector: VectorText,
}

impl Searches {
    /// What the search of the next words answers.
    fn found(
        &self,
        alloc: Global,
        fields: &mut Fields<'_>,
        told: &mut String,
    ) -> Result<(), CaseFault> {
        let request = requests::next_search(alloc, fields)?;
        answered::tell_search(
            alloc,
            &self.suffix,
            self.picked.as_slice(),
            &self.vector,
            &request,
            told,
        )
    }
}

impl Subjects for Searches {
    fn answer(
        &mut self,
        alloc: Global,
        subject: &str,
        fields: &mut Fields<'_>,
        told: &mut String,
    ) -> Result<(), CaseFault> {
        match subject {
            "begin" => {
                self.taken = Taken::new(alloc);
                Ok(())
            }
            "change" => self.taken.take(alloc, fields, told),
            "view" => {
                self.picked = self.taken.picked(alloc, fields.word()?)?;
                Ok(())
            }
            "vector" => {
                self.vector = requests::rest(alloc, fields)?;
                Ok(())
            }
            "truth" => truths::tell_truth(
                alloc,
                &self.suffix,
                self.picked.as_slice(),
                fields,
                told,
            ),
            "search" => self.found(alloc, fields, told),
            _ => Err(CaseFault::Subject),
        }
    }
}

/// Searches over the suffix `dc=example`, without changes.
fn without_changes(alloc: Global) -> Result<Searches, CaseFault> {
    Ok(Searches {
        taken: Taken::new(alloc),
        suffix: example_suffix(alloc)?,
        picked: Items::new(alloc),
        vector: VectorText::new(alloc),
    })
}

fn main(rt: HostRuntime) -> ExitCode {
    match without_changes(rt.alloc()) {
        Ok(mut searches) => run_cases(&rt, &mut searches),
        Err(_) => ExitCode::from(2),
    }
}
