//! The attributes that an entry shows: those of users, and those that a view derives.

ghost use Rattle.std.specs.Prelude.{◌≡◌, ◌++◌, ◌∷◌, [], List, map, flat_map, codes, Option, IfOk, OnOk, if◌then◌else◌};
ghost use Rattle.repl_data.specs.declared.change.Attr.{Attr};
ghost use Rattle.repl_data.specs.declared.change.Shown.{Shown};
ghost use Rattle.repl_data.specs.Order.{bytes_eq};
ghost use Rattle.repl_data.specs.View.{glue_class, tombstone_class, glue_conflict, naming_conflict, naming_conflicts, conflicts, id_val, user, operational, shown_present, shown_gone};
ghost use Rattle.shown_entry.specs.Users.{vals_in, classed, in_name_order, present_attrs, gone_attrs};

use crate::key::conflict_key;
use crate::order::{in_order, put};
use repl_data::{
    Bytes, Items, NoMemory, Shown, ShownEntry, ShownList, Uid, Val, ValList, attr_named,
    same_bytes, text_val,
};
use std::alloc::Global;

fn text(alloc: Global, bytes: &[u8]) -> Result<Bytes, NoMemory>
    ensures { IfOk result (λ t. t ≡ bytes.now) }
{
    Bytes::from_slice(alloc, bytes)
}

fn glue_class(alloc: Global) -> Result<Val, NoMemory>
    ensures { IfOk result (λ v. v ≡ glue_class) }
{
    text_val(alloc, b"glue".as_slice())
}

fn tombstone_class(alloc: Global) -> Result<Val, NoMemory>
    ensures { IfOk result (λ v. v ≡ tombstone_class) }
{
    Ok(Val {
        key: text(alloc, b"nstombstone".as_slice())?,
        spelled: text(alloc, b"nsTombstone".as_slice())?,
    })
}

fn glue_conflict(alloc: Global) -> Result<Val, NoMemory>
    ensures { IfOk result (λ v. v ≡ glue_conflict) }
{
    Ok(Val {
        key: text(alloc, b"deletedentryhaschildren".as_slice())?,
        spelled: text(alloc, b"deletedEntryHasChildren".as_slice())?,
    })
}

/// What an entry shows that lost this name.
fn naming_conflict(alloc: Global, dn: &Bytes) -> Result<Val, NoMemory>
    ensures { IfOk result (λ v. v ≡ naming_conflict dn.now) }
{
    let mut spelled = text(alloc, b"namingConflict ".as_slice())?;
    spelled.extend_from_slice(dn.as_slice())?;
    let key = conflict_key(alloc, spelled.as_slice())?;
    Ok(Val { key, spelled })
}

pub(crate) fn id_val(alloc: Global, id: Uid) -> Result<Val, NoMemory>
    ensures { IfOk result (λ v. v ≡ id_val id) }
{
    text_val(alloc, id.text().as_slice())
}

fn one_val(alloc: Global, val: Val) -> Result<ValList, NoMemory>
    ensures { IfOk result (λ vals. vals ≡ val ∷ []) }
{
    let mut vals = Items::new(alloc);
    vals.push(val)?;
    Ok(vals)
}

fn glue_conflicts(alloc: Global, glue: bool) -> Result<ValList, NoMemory>
    ensures { IfOk result (λ vals. vals ≡ (if glue then glue_conflict ∷ [] else [])) }
{
    let mut vals = Items::new(alloc);
    if glue {
        vals.push(glue_conflict(alloc)?)?;
    }
    Ok(vals)
}

fn naming_conflicts(alloc: Global, lost: &Option<Bytes>) -> Result<ValList, NoMemory>
    ensures { IfOk result (λ vals. vals ≡ naming_conflicts lost.now) }
{
    match lost {
        Some(dn) => one_val(alloc, naming_conflict(alloc, dn)?),
        None => Ok(Items::new(alloc)),
    }
}

/// The values of `nsds5replconflict`.
fn conflicts(alloc: Global, glue: bool, lost: &Option<Bytes>) -> Result<ValList, NoMemory>
    ensures { IfOk result (λ vals. vals ≡ conflicts glue lost.now) }
{
    let mut vals = glue_conflicts(alloc, glue)?;
    vals.append(naming_conflicts(alloc, lost)?)?;
    Ok(vals)
}

/// Appends the values of the attribute, if it has this name.
fn push_vals(name: &[u8], shown: &Shown, vals: &mut ValList) -> Result<(), NoMemory>
    ensures { OnOk result (vals.new ≡ vals.old ++ (if bytes_eq shown.now.attr.name name.now then shown.now.vals else [])) }
{
    if same_bytes(shown.attr.name.as_slice(), name) {
        let more = shown.vals.clone()?;
        vals.append(more)?;
    }
    Ok(())
}

#[tactic(auto, using(repl_data::proofs::Loops::flat_map_more))]
fn vals_in(alloc: Global, name: &[u8], users: &[Shown]) -> Result<ValList, NoMemory>
    ensures { IfOk result (λ vals. vals ≡ vals_in name.now users.now) }
{
    let mut vals = Items::new(alloc);
    for shown in users {
        push_vals(name, shown, &mut vals)?;
    }
    Ok(vals)
}

fn copied(users: &ShownList) -> Result<ShownList, NoMemory>
    ensures { IfOk result (λ copy. copy ≡ users.now) }
{
    let copy = users.clone()?;
    Ok(copy)
}

/// The attributes with one class more.
fn classed(alloc: Global, class: Val, users: &ShownList) -> Result<ShownList, NoMemory>
    ensures { IfOk result (λ all. all ≡ classed class users.now) }
{
    let attr = attr_named(alloc, b"objectclass".as_slice())?;
    let mut vals = vals_in(alloc, b"objectclass".as_slice(), users.as_slice())?;
    put(class, &mut vals)?;
    let mut all = copied(users)?;
    let shown = Shown {
        attr,
        vals,
        operational: false,
    };
    put(shown, &mut all)?;
    Ok(all)
}

/// The attributes, and of glue its class.
fn glue_classed(alloc: Global, glue: bool, users: &ShownList) -> Result<ShownList, NoMemory>
    ensures { IfOk result (λ all. all ≡ (if glue then classed glue_class users.now else users.now)) }
{
    if glue {
        let class = glue_class(alloc)?;
        classed(alloc, class, users)
    } else {
        copied(users)
    }
}

/// Appends the operational attribute, unless it has no value.
fn push_operational(
    alloc: Global,
    name: &[u8],
    vals: ValList,
    own: &mut ShownList,
) -> Result<(), NoMemory>
    ensures { OnOk result (own.new ≡ own.old ++ operational name.now vals) }
{
    if !vals.is_empty() {
        let attr = attr_named(alloc, name)?;
        own.push(Shown {
            attr,
            vals,
            operational: true,
        })?;
    }
    Ok(())
}

fn push_id(alloc: Global, name: &[u8], id: Uid, own: &mut ShownList) -> Result<(), NoMemory>
    ensures { OnOk result (own.new ≡ own.old ++ operational name.now (id_val id ∷ [])) }
{
    let vals = one_val(alloc, id_val(alloc, id)?)?;
    push_operational(alloc, name, vals, own)
}

/// The operational attributes and those of users, in order of name.
fn in_name_order(alloc: Global, own: ShownList, users: ShownList) -> Result<ShownList, NoMemory>
    ensures { IfOk result (λ all. all ≡ in_name_order (own ++ users)) }
{
    let mut all = own;
    all.append(users)?;
    in_order(alloc, all)
}

#[tactic(auto, unfolding(crate::specs::Users::present_attrs))]
fn present_attrs(
    alloc: Global,
    id: Uid,
    glue: bool,
    lost: &Option<Bytes>,
    users: &ShownList,
) -> Result<ShownList, NoMemory>
    ensures { IfOk result (λ all. all ≡ present_attrs id glue lost.now users.now) }
{
    let mut own = Items::new(alloc);
    push_id(alloc, b"nsuniqueid".as_slice(), id, &mut own)?;
    let conflicts = conflicts(alloc, glue, lost)?;
    push_operational(alloc, b"nsds5replconflict".as_slice(), conflicts, &mut own)?;
    let users = glue_classed(alloc, glue, users)?;
    let all = in_name_order(alloc, own, users)?;
    Ok(all)
}

#[tactic(auto, unfolding(crate::specs::Users::gone_attrs))]
fn gone_attrs(alloc: Global, id: Uid, parent: Uid, users: &ShownList) -> Result<ShownList, NoMemory>
    ensures { IfOk result (λ all. all ≡ gone_attrs id parent users.now) }
{
    let mut own = Items::new(alloc);
    push_id(alloc, b"nsuniqueid".as_slice(), id, &mut own)?;
    push_id(alloc, b"nsparentuniqueid".as_slice(), parent, &mut own)?;
    let class = tombstone_class(alloc)?;
    let users = classed(alloc, class, users)?;
    let all = in_name_order(alloc, own, users)?;
    Ok(all)
}

/// A present entry as it shows: by its printed name `dn`, whether it is glue, the printed name that it lost
/// to another entry, and its user attributes `users`, which are copied. Takes time in proportion to its
/// size, and moves its attributes, without their values, once for each attribute.
pub fn present_shown(
    alloc: Global,
    id: Uid,
    dn: Bytes,
    glue: bool,
    lost: Option<Bytes>,
    users: &ShownList,
) -> Result<ShownEntry, NoMemory>
    ensures { IfOk result (λ shown. (attrs : List Attr) → users.now ≡ map user attrs → shown ≡ shown_present id dn glue lost attrs) }
{
    let attrs = present_attrs(alloc, id, glue, &lost, users)?;
    Ok(ShownEntry { id, dn, attrs })
}

/// A tombstone as it shows: by its printed name `dn`, its parent, and its user attributes `users`, which are
/// copied. At the cost of `present_shown`.
pub fn tombstone_shown(
    alloc: Global,
    id: Uid,
    dn: Bytes,
    parent: Uid,
    users: &ShownList,
) -> Result<ShownEntry, NoMemory>
    ensures { IfOk result (λ shown. (attrs : List Attr) → users.now ≡ map user attrs → shown ≡ shown_gone id dn parent attrs) }
{
    let attrs = gone_attrs(alloc, id, parent, users)?;
    Ok(ShownEntry { id, dn, attrs })
}
