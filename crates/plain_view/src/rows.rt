//! The entries of the view.

ghost use Rattle.std.specs.Prelude.{◌≡◌, ◌&&◌, not, List, map, IfOk};
ghost use Rattle.repl_data.specs.Order.{uid_eq, suffix_id};
ghost use Rattle.repl_data.specs.View.{PresentEntry, Tombstone, is_shown_below, lost_name, user};
ghost use Rattle.repl_data.specs.Lent.{standing};
ghost use Rattle.plain_view.specs.Seen.{kept, present_entry, tombstone};

use crate::copied::Copied;
use crate::facts::EntryFacts;
use crate::names::same_rdn;
use repl_data::{Items, NoMemory, Rdn, ShownList, Standing, Uid, same_id};
use std::alloc::Global;
use std::marker::Model;

/// The user attributes of an entry, kept to be shown. Contracts see the attributes.
#[derive(Debug, Drop)]
pub(crate) struct UserAttrs {
    list: ShownList,
}

impl Model for UserAttrs {
    ghost use Rattle.std.specs.Prelude.{◌≡◌, List, map};
    ghost use Rattle.repl_data.specs.declared.change.Attr.{Attr};
    ghost use Rattle.repl_data.specs.View.{user};
    ghost use Rattle.repl_data.specs.Lent.{standing};
    ghost use Rattle.plain_view.specs.Seen.{kept};

    ghost Value = { List Attr };

    ghost view = { λ u. map kept u.list };

    ghost invariant = { λ u. u.list ≡ map user (map kept u.list) };
}

impl UserAttrs {
    pub(crate) fn of(list: ShownList) -> UserAttrs
        requires { list ≡ map user (map kept list) }
        ensures { result ≡ map kept list }
    {
        UserAttrs { list }
    }

    /// The attributes as they show.
    pub(crate) fn list(&self) -> &ShownList
        ensures { result.now ≡ map user self.now }
    {
        &self.list
    }
}

/// A present entry: its name, the relative name that it shows, and the values that it shows of its
/// own.
#[derive(Debug, Drop)]
pub(crate) struct PresentEntry {
    pub(crate) id: Uid,
    pub(crate) parent: Uid,
    pub(crate) name: Rdn,
    pub(crate) shown: Rdn,
    pub(crate) glue: bool,
    pub(crate) attrs: UserAttrs,
}

impl Model for PresentEntry {
    ghost use Rattle.repl_data.specs.View.{PresentEntry};

    ghost Value = { PresentEntry };

    ghost view = { λ e. record { id = e.id; parent = e.parent; name = e.name; shown = e.shown; is_glue = e.glue; attrs = e.attrs } };
}

pub(crate) type PresentList = Items<PresentEntry>;

/// An entry that was added and is not present.
#[derive(Debug, Drop)]
pub(crate) struct Tombstone {
    pub(crate) id: Uid,
    pub(crate) parent: Uid,
    pub(crate) name: Rdn,
    pub(crate) attrs: UserAttrs,
}

impl Model for Tombstone {
    ghost use Rattle.repl_data.specs.View.{Tombstone};

    ghost Value = { Tombstone };

    ghost view = { λ e. record { id = e.id; parent = e.parent; name = e.name; attrs = e.attrs } };
}

pub(crate) type TombstoneList = Items<Tombstone>;

impl PresentEntry {
    pub(crate) fn has_id(&self, id: Uid) -> bool
        ensures { result ≡ uid_eq self.now.id id }
    {
        same_id(self.id, id)
    }

    pub(crate) fn is_shown_below(&self, parent: Uid) -> bool
        ensures { result ≡ is_shown_below parent self.now }
    {
        same_id(self.parent, parent) && !same_id(self.id, Uid::SUFFIX)
    }

    /// Another entry has its name.
    pub(crate) fn lost_name(&self) -> bool
        ensures { result ≡ lost_name self.now }
    {
        !same_rdn(&self.name, &self.shown)
    }

    pub(crate) fn is_glue(&self) -> bool
        ensures { result ≡ self.now.is_glue }
    {
        self.glue
    }

    pub(crate) fn standing(&self) -> Standing
        ensures { result ≡ standing self.now }
    {
        Standing {
            glue: self.is_glue(),
            lost: self.lost_name(),
        }
    }

    pub(crate) fn users(&self) -> &ShownList
        ensures { result.now ≡ map user self.now.attrs }
    {
        self.attrs.list()
    }
}

impl Tombstone {
    pub(crate) fn users(&self) -> &ShownList
        ensures { result.now ≡ map user self.now.attrs }
    {
        self.attrs.list()
    }

    pub(crate) fn has_id(&self, id: Uid) -> bool
        ensures { result ≡ uid_eq self.now.id id }
    {
        same_id(self.id, id)
    }
}

/// A present entry, as it shows among the present ones.
#[tactic(auto, unfolding(crate::specs::Seen::present_entry))]
pub(crate) fn shown_entry(
    alloc: Global,
    present: &[EntryFacts],
    e: &EntryFacts,
) -> Result<PresentEntry, NoMemory>
    ensures { IfOk result (λ entry. entry ≡ present_entry present.now e.now) }
{
    Ok(PresentEntry {
        id: e.id,
        parent: e.parent,
        name: e.rdn.copied()?,
        shown: e.shown_rdn(alloc, present)?,
        glue: !e.is_live(),
        attrs: e.attrs_shown(alloc)?,
    })
}

pub(crate) fn present_entries(
    alloc: Global,
    present: &[EntryFacts],
) -> Result<PresentList, NoMemory>
    ensures { IfOk result (λ entries. entries ≡ map (present_entry present.now) present.now) }
{
    let mut entries = Items::new(alloc);
    for e in present {
        let one = shown_entry(alloc, present, e)?;
        entries.push(one)?;
    }
    Ok(entries)
}

#[tactic(auto, unfolding(crate::specs::Seen::tombstone))]
fn gone_entry(alloc: Global, e: &EntryFacts) -> Result<Tombstone, NoMemory>
    ensures { IfOk result (λ entry. entry ≡ tombstone e.now) }
{
    Ok(Tombstone {
        id: e.id,
        parent: e.parent,
        name: e.rdn.copied()?,
        attrs: e.attrs_shown(alloc)?,
    })
}

pub(crate) fn tombstones(alloc: Global, gone: &[EntryFacts]) -> Result<TombstoneList, NoMemory>
    ensures { IfOk result (λ entries. entries ≡ map tombstone gone.now) }
{
    let mut entries = Items::new(alloc);
    for e in gone {
        let one = gone_entry(alloc, e)?;
        entries.push(one)?;
    }
    Ok(entries)
}
