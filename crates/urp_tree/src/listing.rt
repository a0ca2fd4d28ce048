//! The children of an entry, in order of the names that they show.
ghost use Rattle.std.specs.Prelude.{◌≡◌, ◌++◌, List, ℕ, true, false, None, Some, map, flat_map, IfOk, OnOk, []};
ghost use Rattle.std.specs.List.{AllByRecursion};
ghost use Rattle.std.specs.Option.{option_copied};
ghost use Rattle.repl_data.specs.declared.csn.Uid.{Uid};
ghost use Rattle.repl_data.specs.declared.change.Rdn.{Rdn};
ghost use Rattle.repl_data.specs.Order.{foldr, put_by, in_order};
ghost use Rattle.repl_data.specs.View.{view_of_facts, children_of, shown_key_cmp};
ghost use Rattle.urp_names.specs.Contending.{id_of};
ghost use Rattle.urp_tree.specs.Rows.{row_at, facts_in};
ghost use Rattle.urp_tree.specs.Known.{IsTree};
ghost use Rattle.urp_tree.specs.Listed.{Kid, kid_key, kids_at, ids_in, IsAlone};

use crate::room::seat_count;
use crate::row::Row;
use crate::seat::Rows;
use crate::shown::shown_name;
use crate::way::row_of;
use repl_data::{Items, NoMemory, Rdn, Uid, UidList};
use std::alloc::Global;
use std::collections::{BTreeMap, BTreeSet};
use urp_names::{Contender, Contenders};

/// Children by the names that they show.
type Kids = BTreeSet<(Rdn, Uid)>;

#[tactic(auto, using(repl_data::proofs::Loops::map_more))]
fn push_ids(who: &[Contender], ids: &mut UidList) -> Result<(), NoMemory>
    ensures { OnOk result (ids.new ≡ ids.old ++ map id_of who.now) }
{
    for c in who {
        ids.push(c.id)?;
    }
    Ok(())
}

/// Those who contend for the names, name by name.
fn ids_below(names: &BTreeMap<Rdn, Contenders>, alloc: Global) -> Result<UidList, NoMemory>
    ensures { IfOk result (λ ids. ids ≡ ids_in names.now.entries) }
{
    let mut ids = Items::new(alloc);
    for (_, who) in names {
        push_ids(who.as_slice(), &mut ids)?;
    }
    Ok(ids)
}

/// Several contend for one of the names.
fn is_contested(names: &BTreeMap<Rdn, Contenders>) -> bool
    ensures { result ≡ false → AllByRecursion IsAlone names.now.entries }
{
    for (_, who) in names {
        if who.len() > 1 {
            return true;
        }
    }
    false
}

/// Puts a child to its place by the name that it shows. Two look-ups, and a copy of the name.
fn put_kid(rows: &Rows, alloc: Global, id: Uid, kids: &mut Kids) -> Result<(), NoMemory>
    requires { IsTree rows.now None [] }
    ensures { OnOk result (map kid_key kids.new.keys ≡ foldr (put_by (λ (k : Kid). k) shown_key_cmp) (map kid_key kids.old.keys) (kids_at rows.now id)) }
{
    let _seats = seat_count(rows);
    let Some(row) = row_of(rows, id) else {
        return Ok(());
    };
    let name = shown_name(rows, alloc, &row.entry)?;
    kids.insert((name, id))?;
    Ok(())
}

fn sorted(rows: &Rows, alloc: Global, ids: &[Uid]) -> Result<Kids, NoMemory>
    requires { IsTree rows.now None [] }
    ensures { IfOk result (λ kids. map kid_key kids.keys ≡ in_order shown_key_cmp (flat_map (kids_at rows.now) ids.now)) }
{
    let mut kids = BTreeSet::new(alloc);
    for id in ids {
        put_kid(rows, alloc, *id, &mut kids)?;
    }
    Ok(kids)
}

fn ids_of(kids: &Kids, alloc: Global) -> Result<UidList, NoMemory>
    ensures { IfOk result (λ ids. ids ≡ map (λ (k : Rdn × Uid). k.1) kids.now.keys) }
{
    let mut ids = Items::new(alloc);
    for kid in kids {
        ids.push(kid.1)?;
    }
    Ok(ids)
}

/// The children of the entry of a row. Where several contend for one of their names, all are sorted.
fn below(rows: &Rows, alloc: Global, parent: Uid, row: &Row) -> Result<UidList, NoMemory>
    requires tree { IsTree rows.now None [] }
    requires at { row_at rows.now parent ≡ Some row.now }
    ensures { IfOk result (λ ids. (suffix : List ℕ) → ids ≡ children_of (view_of_facts suffix (facts_in rows.now.entries)) parent) }
{
    let _seats = seat_count(rows);
    let _names = row.names.len();
    let ids = ids_below(&row.names, alloc)?;
    if !is_contested(&row.names) {
        return Ok(ids);
    }
    let kids = sorted(rows, alloc, ids.as_slice())?;
    ids_of(&kids, alloc)
}

/// The children of an entry in order of the names that they show. One look-up, and one look at each; where
/// several contend for one of their names, for each child two look-ups, a copy of its name and its place
/// among the others.
pub(crate) fn children(rows: &Rows, alloc: Global, parent: Uid) -> Result<UidList, NoMemory>
    requires { IsTree rows.now None [] }
    ensures { IfOk result (λ ids. (suffix : List ℕ) → ids ≡ children_of (view_of_facts suffix (facts_in rows.now.entries)) parent) }
{
    let _seats = seat_count(rows);
    match row_of(rows, parent) {
        Some(row) => below(rows, alloc, parent, row),
        None => Ok(Items::new(alloc)),
    }
}
