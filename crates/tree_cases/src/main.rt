//! Cases of trees: what a tree answers after changes in every order of arrival, beside the plain view of them; whom a
//! change changes; many changes one after the other; and who has a name of those that contend for it.
#![tactic(auto)]

mod effects;
mod grown;
mod many;
mod names;
mod told;

use case_lines::{CaseFault, Fields, Subjects, or_memory, run_cases};
use case_views::{Taken, example_suffix};
use repl_data::Suffix;
use std::alloc::Global;
use std::fmt::Write;
use std::process::ExitCode;
use urp_names::Contenders;
use urp_tree::UrpTree;

/// The changes so far, below the suffix `dc=example`; all that the plain view of some of them answers; the tree that is
/// asked and that takes changes one after the other; and those that contend for one name.
#[derive(Drop)]
struct Trees {
    suffix: Suffix,
    taken: Taken,
    plain: String,
    tree: UrpTree,
    who: Contenders,
}

impl Trees {
    /// Lets a tree grow in each of these orders. Tells how many of them answer all as the plain view does, and in which
    /// orders one does not. The last tree is the one that is asked from then on.
    fn compare(
        &mut self,
        alloc: Global,
        fields: &mut Fields<'_>,
        told: &mut String,
    ) -> Result<(), CaseFault> {
        let mut alike: u64 = 0;
        for _ in 0..u64::MAX {
            if fields.is_empty() {
                break;
            }
            let places = fields.word()?;
            self.tree = grown::tree(alloc, &self.suffix, &self.taken, places)?;
            let answers = told::all(alloc, &self.tree)?;
            if answers.as_str() == self.plain.as_str() {
                alike = alike.saturating_add(1);
            } else {
                write!(told, "not {places}, ")?;
            }
        }
        write!(told, "{alike} alike")?;
        Ok(())
    }
}

impl Subjects for Trees {
    fn answer(
        &mut self,
        alloc: Global,
        subject: &str,
        fields: &mut Fields<'_>,
        told: &mut String,
    ) -> Result<(), CaseFault> {
        match subject {
            "begin" => {
                *self = without_changes(alloc)?;
                Ok(())
            }
            "change" => self.taken.take(alloc, fields, told),
            "plain" => {
                self.plain = grown::plain(alloc, &self.suffix, &self.taken, fields.word()?)?;
                Ok(())
            }
            "trees" => self.compare(alloc, fields, told),
            "plan" => effects::tell_plan(alloc, &mut self.tree, fields, told),
            "each" => many::take_each(alloc, &mut self.tree, fields, told),
            "counts" => told::counts(alloc, &self.tree, told),
            "entry" => told::entry(alloc, &self.tree, fields, told),
            _ => names::answer(&mut self.who, subject, fields, told),
        }
    }
}

/// Nothing but the suffix entry.
fn without_changes(alloc: Global) -> Result<Trees, CaseFault> {
    let suffix = example_suffix(alloc)?;
    let tree = or_memory(UrpTree::new(alloc, &suffix))?;
    Ok(Trees {
        suffix,
        taken: Taken::new(alloc),
        plain: String::new(alloc),
        tree,
        who: Contenders::new(alloc),
    })
}

fn main(rt: HostRuntime) -> ExitCode {
    match without_changes(rt.alloc()) {
        Ok(mut trees) => run_cases(&rt, &mut trees),
        Err(_) => ExitCode::from(2),
    }
}
