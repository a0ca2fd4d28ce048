//! Whom a change changes.

use case_changes::{next_change, tell_uid};
use case_lines::{CaseFault, Fields, or_memory};
use repl_data::{Rdn, check};
use std::alloc::Global;
use std::fmt::Write;
use urp_tree::{Changed, UrpTree};

/// Plans the change of the next words and gives the plan up, which leaves the tree as it was. Tells whom the change
/// changes: of each how many parts its shown name has before and after, and whether it is glue.
pub fn tell_plan(
    alloc: Global,
    tree: &mut UrpTree,
    fields: &mut Fields<'_>,
    told: &mut String,
) -> Result<(), CaseFault> {
    let change = next_change(alloc, fields)?;
    if check(&change).is_err() {
        return Err(CaseFault::Argument);
    }
    if !tree.can_take(&change) {
        return Err(CaseFault::Argument);
    }
    let plan = or_memory(tree.plan(alloc, &change))?;
    tell_each(plan.changed().as_slice(), told)
}

fn tell_each(changed: &[Changed], told: &mut String) -> Result<(), CaseFault> {
    let mut mark = "";
    for one in changed {
        told.push_str(mark)?;
        tell_one(one, told)?;
        mark = ", ";
    }
    Ok(())
}

fn tell_one(changed: &Changed, told: &mut String) -> Result<(), CaseFault> {
    tell_uid(told, changed.id)?;
    let (before, after) = (parts(&changed.before), parts(&changed.after));
    let glue = if changed.glue { " glue" } else { "" };
    write!(told, " {before}>{after}{glue}")?;
    Ok(())
}

/// How many parts a shown name has; none where the entry is not present.
fn parts(name: &Option<Rdn>) -> usize {
    match name {
        Some(name) => name.avas.len(),
        None => 0,
    }
}
