//! What is kept of an entry.
ghost use Rattle.std.specs.Prelude.{◌≡◌, Some, is_some, map, IfOk};
ghost use Rattle.repl_data.specs.Order.{same_rdn};
ghost use Rattle.repl_data.specs.declared.change.Shown.{Shown};
ghost use Rattle.repl_data.specs.View.{user};
ghost use Rattle.urp_tree.specs.Moves.{kept};
ghost use Rattle.view_snap.specs.Told.{told_of, is_lost, standing_with};

use repl_data::{Items, NoMemory, Rdn, Shown, ShownList, Standing, Uid};
use std::alloc::Global;
use std::marker::Model;
use urp_tree::Changed;

/// What is kept of an entry, present or a tombstone. Contracts see its parent, its name, the name that it shows where
/// it is present, whether it is glue, and its attributes.
#[derive(Debug, Drop)]
pub(crate) struct Seen {
    parent: Uid,
    name: Rdn,
    shown: Option<Rdn>,
    glue: bool,
    /// Another entry has its name.
    lost: bool,
    users: ShownList,
}

impl Model for Seen {
    ghost use Rattle.std.specs.Prelude.{◌≡◌, map};
    ghost use Rattle.repl_data.specs.View.{user};
    ghost use Rattle.urp_tree.specs.Moves.{kept};
    ghost use Rattle.view_snap.specs.Told.{Told, is_lost};

    ghost Value = { Told };

    ghost view = { λ s. record { parent = s.parent; name = s.name; shown = s.shown; glue = s.glue; attrs = map kept s.users } };

    ghost invariant = { λ s. (s.lost ≡ is_lost s.name s.shown) × (s.users ≡ map user (map kept s.users)) };
}

pub(crate) fn copied(rdn: &Rdn) -> Result<Rdn, NoMemory>
    ensures { IfOk result (λ copy. copy ≡ rdn.now) }
{
    Ok(rdn.clone()?)
}

fn copied_shown(shown: &Option<Rdn>) -> Result<Option<Rdn>, NoMemory>
    ensures { IfOk result (λ copy. copy ≡ shown.now) }
{
    match shown {
        Some(rdn) => Ok(Some(copied(rdn)?)),
        None => Ok(None),
    }
}

fn same_rdn(a: &Rdn, b: &Rdn) -> bool
    ensures { result ≡ same_rdn a.now b.now }
{
    a == b
}

fn is_lost(name: &Rdn, shown: &Option<Rdn>) -> bool
    ensures { result ≡ is_lost name.now shown.now }
{
    match shown {
        Some(rdn) => !same_rdn(name, rdn),
        None => false,
    }
}

/// A copy of an attribute, as an attribute of users.
fn user_copy(shown: &Shown) -> Result<Shown, NoMemory>
    ensures { IfOk result (λ copy. copy ≡ user (kept shown.now)) }
{
    let attr = shown.attr.clone()?;
    let vals = shown.vals.clone()?;
    Ok(Shown {
        attr,
        vals,
        operational: false,
    })
}

#[tactic(auto, using(repl_data::proofs::Loops::map_more))]
fn user_copies(alloc: Global, users: &[Shown]) -> Result<ShownList, NoMemory>
    ensures { IfOk result (λ copies. copies ≡ map (λ (s : Shown). user (kept s)) users.now) }
{
    let mut copies = Items::new(alloc);
    for shown in users {
        copies.push(user_copy(shown)?)?;
    }
    Ok(copies)
}

impl Seen {
    /// An entry as a plan tells it. A copy of its names and values.
    pub(crate) fn of(alloc: Global, told: &Changed) -> Result<Seen, NoMemory>
        ensures { IfOk result (λ s. s ≡ told_of told.now) }
    {
        let name = copied(&told.name)?;
        let shown = copied_shown(&told.after)?;
        let lost = is_lost(&name, &shown);
        let users = user_copies(alloc, told.attrs.as_slice())?;
        Ok(Seen {
            parent: told.parent,
            name,
            shown,
            glue: told.glue,
            lost,
            users,
        })
    }

    pub(crate) fn parent(&self) -> Uid
        ensures { result ≡ self.now.parent }
    {
        self.parent
    }

    /// The name that it has or contends for.
    pub(crate) fn name(&self) -> &Rdn
        ensures { result.now ≡ self.now.name }
    {
        &self.name
    }

    /// The name that it shows, where it is present.
    pub(crate) fn shown(&self) -> &Option<Rdn>
        ensures { result.now ≡ self.now.shown }
    {
        &self.shown
    }

    pub(crate) fn is_present(&self) -> bool
        ensures { result ≡ is_some self.now.shown }
    {
        self.shown.is_some()
    }

    /// It is present and not live.
    pub(crate) fn glue(&self) -> bool
        ensures { result ≡ self.now.glue }
    {
        self.glue
    }

    /// Another entry has its name.
    pub(crate) fn lost(&self) -> bool
        ensures { result ≡ is_lost self.now.name self.now.shown }
    {
        self.lost
    }

    pub(crate) fn standing(&self) -> Standing
        ensures { result ≡ standing_with self.now }
    {
        Standing {
            glue: self.glue(),
            lost: self.lost(),
        }
    }

    /// A copy of the name that it shows. It has to be present.
    pub(crate) fn shown_name(&self) -> Result<Rdn, NoMemory>
        ensures { IfOk result (λ rdn. self.now.shown ≡ Some rdn) }
    {
        match &self.shown {
            Some(rdn) => copied(rdn),
            None => Err(NoMemory),
        }
    }

    /// Its attributes, to be shown.
    pub(crate) fn users(&self) -> &ShownList
        ensures { result.now ≡ map user self.now.attrs }
    {
        &self.users
    }
}
