//! The listing of a view.

ghost use Rattle.std.specs.Prelude.{◌≡◌, ◌++◌, IfOk, OnOk};
ghost use Rattle.std.specs.Option.{option_to_list};
ghost use Rattle.repl_data.specs.View.{dump_of, entry_of};
ghost use Rattle.view_walk.specs.Tree.{IsNamedTree};

use crate::visit::Walk;
use repl_data::{Items, NoMemory, ShownEntryList, Uid, View};
use std::alloc::Global;

/// Appends the entry of this id as it shows, if it is present.
fn push_entry<V: View>(
    alloc: Global,
    view: &V,
    id: Uid,
    entries: &mut ShownEntryList,
) -> Result<(), NoMemory>
    ensures { OnOk result (entries.new ≡ entries.old ++ option_to_list (entry_of (V.view view.now) id)) }
{
    match view.entry(alloc, id)? {
        Some(entry) => entries.push(entry),
        None => Ok(()),
    }
}

/// The present entries as they show, parents first and siblings in order of the names that they show. It costs what
/// the view's `children` and `entry` of each of them cost.
pub fn listing<V: View>(alloc: Global, view: &V) -> Result<ShownEntryList, NoMemory>
    requires { IsNamedTree (V.view view.now) }
    ensures { IfOk result (λ entries. entries ≡ dump_of (V.view view.now)) }
{
    let mut entries = Items::new(alloc);
    let mut walk = Walk::of(alloc, view.root())?;
    while let Some(id) = walk.next(alloc, view)? {
        push_entry(alloc, view, id, &mut entries)?;
    }
    Ok(entries)
}
