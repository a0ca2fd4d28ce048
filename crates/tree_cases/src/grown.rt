//! What comes of changes in an order: a tree that takes them one after the other, and the plain view.

use crate::told;
use case_lines::{CaseFault, or_memory};
use case_views::Taken;
use plain_view::PlainView;
use repl_data::{Change, Suffix, check};
use std::alloc::Global;
use urp_tree::UrpTree;

/// All that the plain view of the changes at these places answers.
pub fn plain(
    alloc: Global,
    suffix: &Suffix,
    taken: &Taken,
    places: &str,
) -> Result<String, CaseFault> {
    let changes = taken.picked(alloc, places)?;
    let view = or_memory(PlainView::of(alloc, suffix, changes.as_slice()))?;
    told::all(alloc, &view)
}

/// The tree that takes the changes at these places, in this order.
pub fn tree(
    alloc: Global,
    suffix: &Suffix,
    taken: &Taken,
    places: &str,
) -> Result<UrpTree, CaseFault> {
    let changes = taken.picked(alloc, places)?;
    let mut tree = or_memory(UrpTree::new(alloc, suffix))?;
    for change in changes.as_slice() {
        take(alloc, &mut tree, change)?;
    }
    Ok(tree)
}

/// The tree takes a change, of which what it needs has to be there. Answers how many entries it changes.
pub fn take(alloc: Global, tree: &mut UrpTree, change: &Change) -> Result<usize, CaseFault> {
    if check(change).is_err() {
        return Err(CaseFault::Argument);
    }
    if !tree.can_take(change) {
        return Err(CaseFault::Argument);
    }
    let plan = or_memory(tree.plan(alloc, change))?;
    let count = plan.changed().len();
    tree.install(plan);
    Ok(count)
}
