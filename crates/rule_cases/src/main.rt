//! Cases of the rules: who may write, which write is refused and why, the body of what is written, and what a
//! compare is answered.
#![tactic(auto)]

mod adds;
mod binds;
mod bodies;
mod entries;
mod modifies;
mod requests;

use case_lines::{CaseFault, Fields, Subjects, or_memory, run_cases};
use case_views::{Taken, example_suffix};
use plain_view::PlainView;
use repl_data::Suffix;
use std::alloc::Global;
use std::process::ExitCode;

/// The changes so far, and the view by which requests are judged.
#[derive(Drop)]
struct Rules {
    taken: Taken,
    suffix: Suffix,
    view: PlainView,
}

impl Rules {
    /// Judges by the view of the changes at these places.
    fn look(&mut self, alloc: Global, places: &str) -> Result<(), CaseFault> {
        let changes = self.taken.picked(alloc, places)?;
        self.view = or_memory(PlainView::of(alloc, &self.suffix, changes.as_slice()))?;
        Ok(())
    }
}

impl Subjects for Rules {
    fn answer(
        &mut self,
        alloc: Global,
        subject: &str,
        fields: &mut Fields<'_>,
        told: &mut String,
    ) -> Result<(), CaseFault> {
        match subject {
            "begin" => {
                self.taken = Taken::new(alloc);
                Ok(())
            }
            "change" => self.taken.take(alloc, fields, told),
            "view" => self.look(alloc, fields.word()?),
            "add" => adds::refusal(alloc, &self.view, fields, told),
            "body" => bodies::written(alloc, &self.view, fields, told),
            "delete" => entries::delete(alloc, &self.view, fields, told),
            "rename" => entries::rename(alloc, &self.view, fields, told),
            "rename_code" => entries::rename_code(alloc, &self.view, fields, told),
            "modify" => modifies::modify(alloc, &self.view, fields, told),
            "modify_code" => modifies::code(alloc, &self.view, fields, told),
            "compare" => entries::compare(alloc, &self.view, fields, told),
            "bind" => binds::answer(alloc, fields, told),
            _ => Err(CaseFault::Subject),
        }
    }
}

/// The rules over the suffix `dc=example`, without changes.
fn without_changes(alloc: Global) -> Result<Rules, CaseFault> {
    let suffix = example_suffix(alloc)?;
    let taken = Taken::new(alloc);
    let changes = taken.picked(alloc, "-")?;
    let view = or_memory(PlainView::of(alloc, &suffix, changes.as_slice()))?;
    Ok(Rules {
        taken,
        suffix,
        view,
    })
}

fn main(rt: HostRuntime) -> ExitCode {
    match without_changes(rt.alloc()) {
        Ok(mut rules) => run_cases(&rt, &mut rules),
        Err(_) => ExitCode::from(2),
    }
}
