//! Cases of snapshots, beside the tree and the plain view; and their times: `times N` measures trees of N entries.
#![tactic(auto)]

mod drawn;
mod generated;
mod large;
mod run;
mod search_times;
mod searching;
mod shown;
mod times;
mod versions;

use anyhow::Result as AnyResult;
use case_lines::{CaseFault, Fields, Subjects, run_cases};
use case_views::{Taken, example_suffix};
use repl_data::Suffix;
use std::alloc::Global;
use std::env;
use std::process::ExitCode;

/// The changes so far.
#[derive(Drop)]
struct Snapshots {
    taken: Taken,
    suffix: Suffix,
}

impl Snapshots {
    /// What snapshots show that move with a tree.
    fn moved(
        &self,
        alloc: Global,
        fields: &mut Fields<'_>,
        told: &mut String,
    ) -> Result<(), CaseFault> {
        let changes = self.taken.picked(alloc, fields.word()?)?;
        versions::tell_moved(alloc, &self.suffix, changes.as_slice(), told)
    }

    /// What a search over a snapshot answers.
    fn found(
        &self,
        alloc: Global,
        fields: &mut Fields<'_>,
        told: &mut String,
    ) -> Result<(), CaseFault> {
        let changes = self.taken.picked(alloc, fields.word()?)?;
        searching::tell_search(alloc, &self.suffix, changes.as_slice(), fields, told)
    }
}

impl Subjects for Snapshots {
    fn answer(
        &mut self,
        alloc: Global,
        subject: &str,
        fields: &mut Fields<'_>,
        told: &mut String,
    ) -> Result<(), CaseFault> {
        match subject {
            "begin" => {
                self.taken = Taken::new(alloc);
                Ok(())
            }
            "change" => self.taken.take(alloc, fields, told),
            "moved" => self.moved(alloc, fields, told),
            "search" => self.found(alloc, fields, told),
            "generated" => generated::tell_generated(alloc, &self.suffix, fields, told),
            "large" => large::tell_large(alloc, &self.suffix, fields, told),
            _ => Err(CaseFault::Subject),
        }
    }
}

fn without_changes(alloc: Global) -> Result<Snapshots, CaseFault> {
    Ok(Snapshots {
        taken: Taken::new(alloc),
        suffix: example_suffix(alloc)?,
    })
}

/// The words of the command line without the program's own name.
fn words(rt: &HostRuntime) -> AnyResult<Vec<String>> {
    Ok(env::args(rt)?.skip(1).collect(rt.alloc())?)
}

/// The number behind the word `times`, if that is what the words are.
fn measured(words: &[String]) -> Option<u32> {
    match words {
        [word, entries] if word.as_str() == "times" => entries.as_str().parse::<u32>().ok(),
        _ => None,
    }
}

fn measure(rt: &HostRuntime, entries: u32) -> ExitCode {
    match times::measure(rt, entries) {
        Ok(()) => ExitCode::from(0),
        Err(_) => ExitCode::from(2),
    }
}

fn judge(rt: &HostRuntime) -> ExitCode {
    match without_changes(rt.alloc()) {
        Ok(mut snapshots) => run_cases(rt, &mut snapshots),
        Err(_) => ExitCode::from(2),
    }
}

fn main(rt: HostRuntime) -> ExitCode {
    let Ok(words) = words(&rt) else {
        return ExitCode::from(2);
    };
    match measured(words.as_slice()) {
        Some(entries) => measure(&rt, entries),
        None => judge(&rt),
    }
}
