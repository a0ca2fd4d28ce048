//! The stamped entry, its Add, and one change more.

ghost use Rattle.std.specs.Prelude.{◌≡◌, ◌++◌, ◌∷◌, [], List, map, true, IfOk, IsTrue};
ghost use Rattle.repl_data.specs.declared.change.Change.{Change};
ghost use Rattle.repl_data.specs.declared.change.Suffix.{Suffix};
ghost use Rattle.repl_data.specs.Order.{zero_csn, suffix_id, csn_max, later};
ghost use Rattle.repl_data.specs.Closed.{is_sound};
ghost use Rattle.repl_data.specs.Stamps.{body_acts};
ghost use Rattle.repl_data.specs.Facts.{own_facts};
ghost use Rattle.repl_data.specs.Presence.{is_live};
ghost use Rattle.stamp_entry.specs.Ordered.{IsOrdered, AreOrdered};
ghost use Rattle.stamp_entry.specs.Raised.{facts_after, named_after, parent_after, dead_after, raised_by, is_add};
ghost use Rattle.stamp_entry.specs.History.{IsHistory};

use crate::raise::raise_body;
use repl_data::{AttrKey, Body, Bytes, Change, Csn, Items, Keyed, NoMemory, Rdn, Suffix, Uid};
use std::alloc::Global;
use std::marker::Model;

/// A value of an entry: the greatest stamp that added it, with its spelling there, and the greatest
/// stamp that deleted it or its whole attribute. The zero stamp stands for none.
///
/// The value is held where `down` is not above `up`, and where the entry's name has it.
#[derive(Clone, Debug, Drop)]
pub struct StampedVal {
    /// The key by which it compares (RFC 4518).
    pub key: Bytes,
    pub spelled: Bytes,
    pub up: Csn,
    pub down: Csn,
}

impl Model for StampedVal {
    ghost use Rattle.repl_data.specs.Facts.{ValFacts};

    ghost Value = { ValFacts };

    ghost view = { λ v. record { key = v.key; spelled = v.spelled; up = v.up; down = v.down } };
}

/// Values in rising order of key.
pub type StampedValList = Items<StampedVal>;

/// An attribute of an entry: the greatest stamp that deleted the whole of it, and every value that
/// a change named, also those that do not show.
#[derive(Clone, Debug, Drop)]
pub struct StampedAttr {
    pub attr: AttrKey,
    pub whole: Csn,
    pub vals: StampedValList,
}

impl Model for StampedAttr {
    ghost use Rattle.repl_data.specs.Facts.{AttrFacts};

    ghost Value = { AttrFacts };

    ghost view = { λ a. record { attr = a.attr; whole = a.whole; vals = a.vals } };
}

/// Attributes in rising order of name.
pub type StampedAttrList = Items<StampedAttr>;

/// What is known of one entry: its id, its parent, its name with the CSN that gave it, its greatest
/// Del, and its attributes. The zero CSN stands for none.
///
/// Contracts see it as the record `EntryFacts`.
#[derive(Clone, Debug, Drop)]
pub struct StampedEntry {
    pub id: Uid,
    pub parent: Uid,
    pub named: Csn,
    pub dead: Csn,
    pub rdn: Rdn,
    pub attrs: StampedAttrList,
}

impl Model for StampedEntry {
    ghost use Rattle.repl_data.specs.Facts.{EntryFacts};

    ghost Value = { EntryFacts };

    ghost view = { λ e. record { id = e.id; parent = e.parent; named = e.named; dead = e.dead; rdn = e.rdn; attrs = e.attrs } };
}

impl Keyed for StampedVal {
    ghost key_of = { λ v. v.key };

    fn key(&self) -> &[u8] {
        self.key.as_slice()
    }
}

impl Keyed for StampedAttr {
    ghost key_of = { λ a. a.attr.name };

    fn key(&self) -> &[u8] {
        self.attr.name.as_slice()
    }
}

/// The later of two stamps.
pub(crate) fn later_of(a: Csn, b: Csn) -> Csn
    ensures { result ≡ csn_max a b }
{
    if a.compare(b).is_lt() { b } else { a }
}

fn parent_after(body: &Body, old: Uid) -> Uid
    ensures { result ≡ parent_after body.now old }
{
    match body {
        Body::Add { parent, .. } => *parent,
        _ => old,
    }
}

fn dead_after(csn: Csn, body: &Body, dead: Csn) -> Csn
    ensures { result ≡ dead_after csn body.now dead }
{
    match body {
        Body::Del => later_of(dead, csn),
        _ => dead,
    }
}

impl StampedEntry {
    /// The later one of the present name and a given one, with its CSN.
    fn later_name(&self, csn: Csn, rdn: &Rdn) -> Result<(Csn, Rdn), NoMemory>
        ensures { IfOk result (λ name. name ≡ later (self.now.named, self.now.rdn) (csn, rdn.now)) }
    {
        if self.named.compare(csn).is_lt() {
            Ok((csn, rdn.clone()?))
        } else {
            Ok((self.named, self.rdn.clone()?))
        }
    }

    fn name_after(&self, csn: Csn, body: &Body) -> Result<(Csn, Rdn), NoMemory>
        ensures { IfOk result (λ name. name ≡ named_after csn body.now (self.now.named, self.now.rdn)) }
    {
        match body {
            Body::Add { rdn, .. } => self.later_name(csn, rdn),
            Body::Ren { rdn, .. } => self.later_name(csn, rdn),
            _ => Ok((self.named, self.rdn.clone()?)),
        }
    }

    fn copied_attrs(&self) -> Result<StampedAttrList, NoMemory>
        ensures { IfOk result (λ attrs. attrs ≡ self.now.attrs) }
    {
        Ok(self.attrs.clone()?)
    }

    fn attrs_after(&self, alloc: Global, change: &Change) -> Result<StampedAttrList, NoMemory>
        requires ordered { IsOrdered self.now }
        requires sound { IsTrue (is_sound change.now) }
        ensures raised { IfOk result (λ attrs. attrs ≡ raised_by self.now.attrs (body_acts change.now.csn change.now.body)) }
        ensures ordered { IfOk result AreOrdered }
    {
        let mut attrs = self.copied_attrs()?;
        raise_body(alloc, change, &mut attrs)?;
        Ok(attrs)
    }

    fn after(&self, alloc: Global, change: &Change) -> Result<StampedEntry, NoMemory>
        requires ordered { IsOrdered self.now }
        requires sound { IsTrue (is_sound change.now) }
        ensures exact { IfOk result (λ e. e ≡ facts_after change.now self.now) }
        ensures ordered { IfOk result IsOrdered }
    {
        let (named, rdn) = self.name_after(change.csn, &change.body)?;
        let attrs = self.attrs_after(alloc, change)?;
        Ok(StampedEntry {
            id: self.id,
            parent: parent_after(&change.body, self.parent),
            named,
            dead: dead_after(change.csn, &change.body, self.dead),
            rdn,
            attrs,
        })
    }

    /// The entry as its Add makes it. Takes time in proportion to the Add, but for the moves of
    /// attributes and values that do not come in rising order, of which a change that passes
    /// `check` has none.
    pub fn added(alloc: Global, change: &Change) -> Result<StampedEntry, NoMemory>
        requires sound { IsTrue (is_sound change.now) }
        requires add { IsTrue (is_add change.now.body) }

        // What the Add alone says of the entry, below any suffix.
        ensures facts { IfOk result (λ e. (suffix : Suffix) → e ≡ own_facts suffix change.now.target (change.now ∷ [])) }

        ensures ordered { IfOk result IsOrdered }
    {
        let blank = StampedEntry {
            id: change.target,
            parent: Uid::SUFFIX,
            named: Csn::ZERO,
            dead: Csn::ZERO,
            rdn: Rdn {
                avas: Items::new(alloc),
            },
            attrs: Items::new(alloc),
        };
        let added = blank.after(alloc, change)?;
        Ok(added)
    }

    /// The entry after one more of its changes, which may come late, early or again.
    ///
    /// Takes the time of a copy of the entry, and for each value that the change names two searches
    /// among the attributes and two among the values, and one move of those behind it.
    pub fn applied(&self, alloc: Global, change: &Change) -> Result<StampedEntry, NoMemory>
        requires ordered { IsOrdered self.now }
        requires sound { IsTrue (is_sound change.now) }
        requires target { change.now.target ≡ self.now.id }

        // What is known after the change, exactly.
        ensures exact { IfOk result (λ e. e ≡ facts_after change.now self.now) }

        // Whatever changes came before: what they say of the entry and the new one says besides.
        ensures facts { IfOk result (λ e. (suffix : Suffix) (own : List Change) → IsHistory self.now.id own change.now → self.now ≡ own_facts suffix self.now.id own → e ≡ own_facts suffix self.now.id (own ++ change.now ∷ [])) }

        ensures ordered { IfOk result IsOrdered }
    {
        let next = self.after(alloc, change)?;
        Ok(next)
    }

    /// Its name, with the CSN that gave it.
    pub fn name(&self) -> (&Rdn, Csn)
        ensures rdn { result.0.now ≡ self.now.rdn }
        ensures csn { result.1 ≡ self.now.named }
    {
        (&self.rdn, self.named)
    }

    /// No Del has come.
    pub fn is_live(&self) -> bool
        ensures { result ≡ is_live self.now }
    {
        self.dead.compare(Csn::ZERO).is_eq()
    }
}
