//! What the entries that a change changes count, before it and after.
ghost use Rattle.std.specs.Prelude.{◌≡◌, IfOk};
ghost use Rattle.repl_data.specs.Order.{same_rdn};
ghost use Rattle.repl_data.specs.View.{DirectoryView};
ghost use Rattle.urp_tree.specs.declared.changed.Changed.{Changed};
ghost use Rattle.urp_tree.specs.Known.{known_view};
ghost use Rattle.urp_tree.specs.Changes.{HasRisingChanges};
ghost use Rattle.urp_tree.specs.Moves.{IsViewMove};
ghost use Rattle.view_counts.specs.Counts.{IsCounted};
ghost use Rattle.view_counts.specs.Tally.{entry_counts, counted_in, told_standing, counted_after, total};

use crate::counts::{ViewCounts, minus, nothing, one_if, plus};
use repl_data::{NoMemory, Rdn, Standing, Uid, View};
use urp_tree::{Changed, UrpTree};

/// What an entry counts that stands so among the present ones, if it is one of them, and is a tombstone or none.
fn entry_counts(standing: Option<Standing>, gone: bool) -> ViewCounts
    ensures { result ≡ entry_counts standing gone }
{
    match standing {
        Some(standing) => ViewCounts {
            present: 1,
            glue: one_if(standing.glue),
            conflict: one_if(standing.lost),
            tombstone: one_if(gone),
        },
        None => ViewCounts {
            present: 0,
            glue: 0,
            conflict: 0,
            tombstone: one_if(gone),
        },
    }
}

/// What an entry counts in the tree as it is. Three look-ups.
fn counted_in(tree: &UrpTree, id: Uid) -> ViewCounts
    ensures { result ≡ counted_in (known_view tree.now) id }
{
    entry_counts(tree.standing(id), tree.tombstone_parent(id).is_some())
}

fn is_same(a: &Rdn, b: &Rdn) -> bool
    ensures { result ≡ same_rdn a.now b.now }
{
    a == b
}

/// How an entry stands after the change.
fn told_standing(entry: &Changed) -> Option<Standing>
    ensures { result ≡ told_standing entry.now }
{
    match &entry.after {
        Some(shown) => Some(Standing {
            glue: entry.glue,
            lost: !is_same(&entry.name, shown),
        }),
        None => None,
    }
}

/// What an entry counts after the change.
fn counted_after(entry: &Changed) -> ViewCounts
    ensures { result ≡ counted_after entry.now }
{
    entry_counts(told_standing(entry), entry.after.is_none())
}

/// What the entries count in the tree as it is.
fn all_before(tree: &UrpTree, entries: &[Changed]) -> Result<ViewCounts, NoMemory>
    ensures { IfOk result (λ n. n ≡ total (λ c. counted_in (known_view tree.now) c.id) entries.now) }
{
    let mut sum = nothing();
    for entry in entries {
        sum = plus(sum, counted_in(tree, entry.id))?;
    }
    Ok(sum)
}

/// What the entries count after the change.
fn all_after(entries: &[Changed]) -> Result<ViewCounts, NoMemory>
    ensures { IfOk result (λ n. n ≡ total counted_after entries.now) }
{
    let mut sum = nothing();
    for entry in entries {
        sum = plus(sum, counted_after(entry))?;
    }
    Ok(sum)
}

/// The counts after a change, by those before and by the entries that it changes. For each of these three look-ups.
pub(crate) fn moved(
    tree: &UrpTree,
    counts: ViewCounts,
    entries: &[Changed],
) -> Result<ViewCounts, NoMemory>
    requires counted { IsCounted (known_view tree.now) counts }
    requires rises { HasRisingChanges entries.now }
    requires moves { (after : DirectoryView) × IsViewMove (known_view tree.now) after entries.now }

    // Whatever view the change leads to.
    ensures { IfOk result (λ n. (after : DirectoryView) → IsViewMove (known_view tree.now) after entries.now → IsCounted after n) }
{
    let before = all_before(tree, entries)?;
    let after = all_after(entries)?;
    let all = plus(counts, after)?;
    Ok(minus(all, before))
}
