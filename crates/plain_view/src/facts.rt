//! What is known of each entry.

ghost use Rattle.std.specs.Prelude.{◌≡◌, ◌++◌, ◌∷◌, [], ◌^◌, ◌<◌, option_map, IfOk, OnOk, List, map, flat_map, filter, length, codes, if◌then◌else◌};
ghost use Rattle.std.specs.Option.{option_to_list, option_copied};
ghost use Rattle.repl_data.specs.declared.change.Change.{Change};
ghost use Rattle.repl_data.specs.declared.change.AttrKey.{AttrKey};
ghost use Rattle.repl_data.specs.declared.change.Rdn.{Rdn};
ghost use Rattle.repl_data.specs.Order.{zero_csn, bytes_cmp, bytes_eq, uid_cmp, uid_eq, suffix_id, greatest, latest_or, in_order, in_order_by};
ghost use Rattle.repl_data.specs.Stamps.{of_entry, acts_on};
ghost use Rattle.repl_data.specs.Facts.{attr_of, is_act_on, keys_named, additions, deletions, clearings, val_facts, attr_facts, attrs_facts, names_given, parents_given, deaths, ids_added, own_facts, entry_facts, added_ids, ids_known, all_facts};
ghost use Rattle.plain_view.specs.Seen.{act_of};

use crate::acts::{Act, ActList, acts_on};
use crate::copied::{Copied, push_copy, push_if, push_some};
use crate::order::{greatest, latest_or};
use crate::stamp::Stamp;
use repl_data::{
    AttrKey, Body, Bytes, BytesList, Change, Items, NoMemory, Rdn, Suffix, Uid, UidList,
    same_bytes, same_id,
};
use shown_entry::in_order;
use std::alloc::Global;
use std::marker::Model;

/// A value of an entry: the greatest stamp that adds it, with its spelling there, and the greatest
/// stamp that deletes it or its whole attribute. Zero stands for none.
#[derive(Clone, Drop)]
pub(crate) struct ValFacts {
    pub(crate) key: Bytes,
    pub(crate) spelled: Bytes,
    pub(crate) up: Stamp,
    pub(crate) down: Stamp,
}

impl Model for ValFacts {
    ghost use Rattle.repl_data.specs.Facts.{ValFacts};

    ghost Value = { ValFacts };

    ghost view = { λ v. record { key = v.key; spelled = v.spelled; up = v.up; down = v.down } };
}

pub(crate) type ValFactsList = Items<ValFacts>;

/// An attribute of an entry: the greatest stamp that deletes the whole of it, and its values.
#[derive(Clone, Drop)]
pub(crate) struct AttrFacts {
    pub(crate) attr: AttrKey,
    pub(crate) whole: Stamp,
    pub(crate) vals: ValFactsList,
}

impl Model for AttrFacts {
    ghost use Rattle.repl_data.specs.Facts.{AttrFacts};

    ghost Value = { AttrFacts };

    ghost view = { λ a. record { attr = a.attr; whole = a.whole; vals = a.vals } };
}

pub(crate) type AttrFactsList = Items<AttrFacts>;

/// An entry: its id, its parent, its name with the CSN of the name, its greatest Del, and its
/// attributes. Zero stands for none.
#[derive(Clone, Drop)]
pub(crate) struct EntryFacts {
    pub(crate) id: Uid,
    pub(crate) parent: Uid,
    pub(crate) named: Stamp,
    pub(crate) dead: Stamp,
    pub(crate) rdn: Rdn,
    pub(crate) attrs: AttrFactsList,
}

impl Model for EntryFacts {
    ghost use Rattle.repl_data.specs.Facts.{EntryFacts};

    ghost Value = { EntryFacts };

    ghost view = { λ e. record { id = e.id; parent = e.parent; named = e.named; dead = e.dead; rdn = e.rdn; attrs = e.attrs } };
}

impl Copied for EntryFacts {
    fn copied(&self) -> Result<EntryFacts, NoMemory> {
        Ok(self.clone()?)
    }
}

pub(crate) type EntryFactsList = Items<EntryFacts>;

impl Act {
    /// The attribute that is acted on.
    fn attr(&self) -> &AttrKey
        ensures { result.now ≡ attr_of (act_of self.now) }
    {
        match self {
            Act::Adds { attr, .. } => attr,
            Act::Deletes { attr, .. } => attr,
            Act::Clears { attr, .. } => attr,
        }
    }

    fn is_on(&self, attr: &AttrKey) -> bool
        ensures { result ≡ is_act_on attr.now (act_of self.now) }
    {
        same_bytes(attr.name.as_slice(), self.attr().name.as_slice())
    }

    /// The key that is named.
    fn key(&self) -> Option<&Bytes>
        ensures { option_to_list (option_copied result) ≡ keys_named (act_of self.now) }
    {
        match self {
            Act::Adds { val, .. } => Some(&val.key),
            Act::Deletes { val, .. } => Some(&val.key),
            Act::Clears { .. } => None,
        }
    }

    /// The stamp and the spelling where this key is added.
    fn addition(&self, alloc: Global, key: &Bytes) -> Result<Items<(Stamp, Bytes)>, NoMemory>
        ensures { IfOk result (λ given. given ≡ additions key.now (act_of self.now)) }
    {
        let mut given = Items::new(alloc);
        if let Act::Adds { stamp, val, .. } = self {
            if same_bytes(key.as_slice(), val.key.as_slice()) {
                given.push((*stamp, val.spelled.copied()?))?;
            }
        }
        Ok(given)
    }

    /// The stamp where this key or the whole attribute is deleted.
    fn deletion(&self, key: &Bytes) -> Option<Stamp>
        ensures { option_to_list result ≡ deletions key.now (act_of self.now) }
    {
        match self {
            Act::Adds { .. } => None,
            Act::Deletes { stamp, val, .. } => {
                if same_bytes(key.as_slice(), val.key.as_slice()) {
                    Some(*stamp)
                } else {
                    None
                }
            }
            Act::Clears { stamp: all, .. } => Some(*all),
        }
    }

    /// The stamp where the whole attribute is deleted.
    fn clearing(&self) -> Option<Stamp>
        ensures { option_to_list result ≡ clearings (act_of self.now) }
    {
        match self {
            Act::Clears { stamp, .. } => Some(*stamp),
            _ => None,
        }
    }
}

/// The keys that are named.
#[tactic(auto, using(repl_data::proofs::Loops::flat_map_map_more))]
fn keys_named(alloc: Global, acts: &[Act]) -> Result<BytesList, NoMemory>
    ensures { IfOk result (λ keys. keys ≡ flat_map keys_named (map act_of acts.now)) }
{
    let mut keys = Items::new(alloc);
    for act in acts {
        push_copy(act.key(), &mut keys)?;
    }
    Ok(keys)
}

/// The stamps and spellings that add a key.
#[tactic(auto, using(repl_data::proofs::Loops::flat_map_map_more))]
fn additions(alloc: Global, acts: &[Act], key: &Bytes) -> Result<Items<(Stamp, Bytes)>, NoMemory>
    ensures { IfOk result (λ given. given ≡ flat_map (additions key.now) (map act_of acts.now)) }
{
    let mut given = Items::new(alloc);
    for act in acts {
        given.append(act.addition(alloc, key)?)?;
    }
    Ok(given)
}

/// The stamps that delete a key, or all.
#[tactic(auto, using(repl_data::proofs::Loops::flat_map_map_more))]
fn deletions(alloc: Global, acts: &[Act], key: &Bytes) -> Result<Items<Stamp>, NoMemory>
    ensures { IfOk result (λ stamps. stamps ≡ flat_map (deletions key.now) (map act_of acts.now)) }
{
    let mut stamps = Items::new(alloc);
    for act in acts {
        push_some(act.deletion(key), &mut stamps)?;
    }
    Ok(stamps)
}

/// The stamps that delete all.
#[tactic(auto, using(repl_data::proofs::Loops::flat_map_map_more))]
fn clearings(alloc: Global, acts: &[Act]) -> Result<Items<Stamp>, NoMemory>
    ensures { IfOk result (λ stamps. stamps ≡ flat_map clearings (map act_of acts.now)) }
{
    let mut stamps = Items::new(alloc);
    for act in acts {
        push_some(act.clearing(), &mut stamps)?;
    }
    Ok(stamps)
}

/// What acts on one attribute say of a value.
fn val_facts(alloc: Global, acts: &[Act], key: &Bytes) -> Result<ValFacts, NoMemory>
    ensures { IfOk result (λ v. v ≡ val_facts (map act_of acts.now) key.now) }
{
    let none = (Stamp::zero(), Bytes::new(alloc));
    let (up, spelled) = latest_or(none, additions(alloc, acts, key)?);
    let down = greatest(deletions(alloc, acts, key)?);
    Ok(ValFacts {
        key: key.copied()?,
        spelled,
        up,
        down,
    })
}

#[tactic(auto, using(repl_data::proofs::Loops::map_more))]
fn vals_facts(alloc: Global, acts: &[Act], keys: &[Bytes]) -> Result<ValFactsList, NoMemory>
    ensures { IfOk result (λ vals. vals ≡ map (val_facts (map act_of acts.now)) keys.now) }
{
    let mut vals = Items::new(alloc);
    for key in keys {
        let val = val_facts(alloc, acts, key)?;
        vals.push(val)?;
    }
    Ok(vals)
}

/// The acts on this attribute.
#[tactic(auto, using(repl_data::proofs::Loops::filter_map_more))]
fn acts_of_attr(alloc: Global, acts: &[Act], attr: &AttrKey) -> Result<ActList, NoMemory>
    ensures { IfOk result (λ own. map act_of own ≡ filter (is_act_on attr.now) (map act_of acts.now)) }
{
    let mut own = Items::new(alloc);
    for act in acts {
        push_if(act.is_on(attr), act, &mut own)?;
    }
    Ok(own)
}

/// What acts say of an attribute.
fn attr_facts(alloc: Global, acts: &[Act], attr: &AttrKey) -> Result<AttrFacts, NoMemory>
    ensures { IfOk result (λ a. a ≡ attr_facts (map act_of acts.now) attr.now) }
{
    let own = acts_of_attr(alloc, acts, attr)?;
    let whole = greatest(clearings(alloc, own.as_slice())?);
    let keys = in_order(alloc, keys_named(alloc, own.as_slice())?)?;
    let vals = vals_facts(alloc, own.as_slice(), keys.as_slice())?;
    Ok(AttrFacts {
        attr: attr.copied()?,
        whole,
        vals,
    })
}

#[tactic(auto, using(repl_data::proofs::Loops::map_map_more))]
fn attrs_of(alloc: Global, acts: &[Act]) -> Result<Items<AttrKey>, NoMemory>
    ensures { IfOk result (λ attrs. attrs ≡ map attr_of (map act_of acts.now)) }
{
    let mut attrs = Items::new(alloc);
    for act in acts {
        let attr = act.attr().copied()?;
        attrs.push(attr)?;
    }
    Ok(attrs)
}

#[tactic(auto, using(repl_data::proofs::Loops::map_more))]
fn each_attr_facts(
    alloc: Global,
    acts: &[Act],
    attrs: &[AttrKey],
) -> Result<AttrFactsList, NoMemory>
    ensures { IfOk result (λ facts. facts ≡ map (attr_facts (map act_of acts.now)) attrs.now) }
{
    let mut facts = Items::new(alloc);
    for attr in attrs {
        let one = attr_facts(alloc, acts, attr)?;
        facts.push(one)?;
    }
    Ok(facts)
}

/// What acts say of each attribute, in order of name.
fn attrs_facts(alloc: Global, acts: &[Act]) -> Result<AttrFactsList, NoMemory>
    ensures { IfOk result (λ facts. facts ≡ attrs_facts (map act_of acts.now)) }
{
    let attrs = in_order(alloc, attrs_of(alloc, acts)?)?;
    each_attr_facts(alloc, acts, attrs.as_slice())
}

fn name_given(alloc: Global, c: &Change) -> Result<Items<(Stamp, Rdn)>, NoMemory>
    ensures { IfOk result (λ given. given ≡ names_given c.now.csn c.now.body) }
{
    let mut given = Items::new(alloc);
    match &c.body {
        Body::Add { rdn, .. } => given.push((Stamp::of(c.csn), rdn.copied()?))?,
        Body::Ren { rdn, .. } => given.push((Stamp::of(c.csn), rdn.copied()?))?,
        _ => {}
    }
    Ok(given)
}

fn parent_given(c: &Change) -> Option<(Stamp, Uid)>
    ensures { option_to_list result ≡ parents_given c.now.csn c.now.body }
{
    match &c.body {
        Body::Add { parent, .. } => Some((Stamp::of(c.csn), *parent)),
        _ => None,
    }
}

fn death(c: &Change) -> Option<Stamp>
    ensures { option_to_list result ≡ deaths c.now.csn c.now.body }
{
    match &c.body {
        Body::Del => Some(Stamp::of(c.csn)),
        _ => None,
    }
}

fn id_added(c: &Change) -> Option<Uid>
    ensures { option_to_list result ≡ ids_added c.now.target c.now.body }
{
    match &c.body {
        Body::Add { .. } => Some(c.target),
        _ => None,
    }
}

/// The names that changes give, each with its CSN.
#[tactic(auto, using(repl_data::proofs::Loops::flat_map_more))]
fn names_given(alloc: Global, own: &[Change]) -> Result<Items<(Stamp, Rdn)>, NoMemory>
    ensures { IfOk result (λ given. given ≡ flat_map (λ (c : Change). names_given c.csn c.body) own.now) }
{
    let mut given = Items::new(alloc);
    for c in own {
        given.append(name_given(alloc, c)?)?;
    }
    Ok(given)
}

#[tactic(auto, using(repl_data::proofs::Loops::flat_map_more))]
fn parents_given(alloc: Global, own: &[Change]) -> Result<Items<(Stamp, Uid)>, NoMemory>
    ensures { IfOk result (λ given. given ≡ flat_map (λ (c : Change). parents_given c.csn c.body) own.now) }
{
    let mut given = Items::new(alloc);
    for c in own {
        push_some(parent_given(c), &mut given)?;
    }
    Ok(given)
}

#[tactic(auto, using(repl_data::proofs::Loops::flat_map_more))]
fn deaths(alloc: Global, own: &[Change]) -> Result<Items<Stamp>, NoMemory>
    ensures { IfOk result (λ stamps. stamps ≡ flat_map (λ (c : Change). deaths c.csn c.body) own.now) }
{
    let mut stamps = Items::new(alloc);
    for c in own {
        push_some(death(c), &mut stamps)?;
    }
    Ok(stamps)
}

/// What its own changes say of an entry.
pub(crate) fn own_facts(
    alloc: Global,
    suffix: &Suffix,
    id: Uid,
    own: &[Change],
) -> Result<EntryFacts, NoMemory>
    ensures { IfOk result (λ e. e ≡ own_facts suffix.now id own.now) }
{
    let first = (Stamp::zero(), suffix.rdn.copied()?);
    let (named, rdn) = latest_or(first, names_given(alloc, own)?);
    let (_, parent) = latest_or((Stamp::zero(), Uid::SUFFIX), parents_given(alloc, own)?);
    let dead = greatest(deaths(alloc, own)?);
    let acts = acts_on(alloc, suffix, id, own)?;
    let attrs = attrs_facts(alloc, acts.as_slice())?;
    Ok(EntryFacts {
        id,
        parent,
        named,
        dead,
        rdn,
        attrs,
    })
}

/// The changes of one entry.
#[tactic(auto, using(repl_data::proofs::Loops::filter_more))]
fn of_entry(alloc: Global, changes: &[Change], id: Uid) -> Result<Items<Change>, NoMemory>
    ensures { IfOk result (λ own. own ≡ of_entry changes.now id) }
{
    let mut own = Items::new(alloc);
    for c in changes {
        push_if(same_id(c.target, id), c, &mut own)?;
    }
    Ok(own)
}

fn entry_facts(
    alloc: Global,
    suffix: &Suffix,
    changes: &[Change],
    id: Uid,
) -> Result<EntryFacts, NoMemory>
    ensures { IfOk result (λ e. e ≡ entry_facts suffix.now changes.now id) }
{
    let own = of_entry(alloc, changes, id)?;
    own_facts(alloc, suffix, id, own.as_slice())
}

#[tactic(auto, using(repl_data::proofs::Loops::flat_map_more))]
fn added_ids(alloc: Global, changes: &[Change]) -> Result<UidList, NoMemory>
    ensures { IfOk result (λ ids. ids ≡ added_ids changes.now) }
{
    let mut ids = Items::new(alloc);
    for c in changes {
        push_some(id_added(c), &mut ids)?;
    }
    Ok(ids)
}

/// The suffix entry and each entry that was added, in rising order of id.
fn ids_known(alloc: Global, changes: &[Change]) -> Result<UidList, NoMemory>
    ensures { IfOk result (λ ids. ids ≡ ids_known changes.now) }
{
    let mut ids = Items::new(alloc);
    ids.push(Uid::SUFFIX)?;
    ids.append(added_ids(alloc, changes)?)?;
    in_order(alloc, ids)
}

#[tactic(auto, using(repl_data::proofs::Loops::map_more))]
fn each_entry_facts(
    alloc: Global,
    suffix: &Suffix,
    changes: &[Change],
    ids: &[Uid],
) -> Result<EntryFactsList, NoMemory>
    ensures { IfOk result (λ facts. facts ≡ map (entry_facts suffix.now changes.now) ids.now) }
{
    let mut facts = Items::new(alloc);
    for id in ids {
        let one = entry_facts(alloc, suffix, changes, *id)?;
        facts.push(one)?;
    }
    Ok(facts)
}

/// What a list of changes says of each entry, in rising order of id.
pub(crate) fn all_facts(
    alloc: Global,
    suffix: &Suffix,
    changes: &[Change],
) -> Result<EntryFactsList, NoMemory>
    ensures { IfOk result (λ facts. facts ≡ all_facts suffix.now changes.now) }
{
    let ids = ids_known(alloc, changes)?;
    each_entry_facts(alloc, suffix, changes, ids.as_slice())
}
