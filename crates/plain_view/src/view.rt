//! `PlainView`: the questions to it, each answered by its definition.

ghost use Rattle.std.specs.Prelude.{◌≡◌, ◌++◌, ◌∷◌, [], ◌&&◌, ◌||◌, not, codes, find, filter, map, reverse, count_by, List, Bool, IfOk, OnOk, Option, Some, None, option_map, if◌then◌else◌};
ghost use Rattle.std.specs.Option.{option_copied};
ghost use Rattle.std.specs.List.{list_any};
ghost use Rattle.std.specs.Ordering.{ordering_then};
ghost use Rattle.repl_data.specs.Order.{uid_eq, uid_cmp, suffix_id, rdn_key, rdn_key_cmp, same_rdn};
ghost use Rattle.repl_data.specs.View.{PresentEntry, Tombstone, view_of, present_at, gone_at, is_shown_below, children_entries, child_of, children_of, path_among, path_of, dn_of, dn_below, name_of, parent_of, tombstones_of, glue_count, conflict_count, entry_of, tombstone_of, dump_of, lost_name, lost_dn, is_known_in, tombstone_rdn, present_shown, tombstone_shown};
ghost use Rattle.std.specs.Cmp.Lexicographic.{slice_cmp};
ghost use Rattle.repl_data.specs.declared.change.Rdn.{Rdn};
ghost use Rattle.plain_view.specs.declared.view.Listed.{Listed};
ghost use Rattle.plain_view.specs.declared.view.Child.{Child};
ghost use Rattle.plain_view.specs.Listing.{child, listed};

use crate::copied::Copied;
use crate::facts::all_facts;
use crate::names::same_rdn;
use crate::presence::{gone_of, present_of};
use crate::rows::{
    PresentEntry, PresentList, Tombstone, TombstoneList, present_entries, tombstones,
};
use repl_data::{
    Bytes, Change, Items, NoMemory, Rdn, Shown, ShownEntry, ShownEntryList, Standing, Suffix, Uid,
    UidList, View, or, same_id,
};
use shown_entry::{Ranked, dn_text, in_order, tombstone_rdn};
use std::alloc::Global;
use std::cmp::Ordering;
use std::marker::Model;

/// The view of a list of changes, computed by the definitions.
///
/// Contracts see the view as a value: the printed name of the suffix, the present entries and the
/// tombstones, both in rising order of id.
#[derive(Debug, Drop)]
pub struct PlainView {
    suffix: Bytes,
    pub(crate) present: PresentList,
    gone: TombstoneList,
}

impl Model for PlainView {
    ghost use Rattle.repl_data.specs.View.{DirectoryView};

    ghost Value = { DirectoryView };

    ghost view = { λ v. record { suffix = v.suffix; present = v.present; gone = v.gone } };
}

fn present_at(present: &[PresentEntry], id: Uid) -> Option<&PresentEntry>
    ensures { option_copied result ≡ find (λ (e : PresentEntry). uid_eq e.id id) present.now }
{
    present.iter().find(|e| e.has_id(id))
}

fn gone_at(gone: &[Tombstone], id: Uid) -> Option<&Tombstone>
    ensures { option_copied result ≡ find (λ (e : Tombstone). uid_eq e.id id) gone.now }
{
    gone.iter().find(|e| e.has_id(id))
}

fn is_present(present: &[PresentEntry], id: Uid) -> bool
    ensures { result ≡ list_any (λ (e : PresentEntry). uid_eq e.id id) present.now }
{
    present.iter().any(|e| e.has_id(id))
}

fn is_gone(gone: &[Tombstone], id: Uid) -> bool
    ensures { result ≡ list_any (λ (e : Tombstone). uid_eq e.id id) gone.now }
{
    gone.iter().any(|e| e.has_id(id))
}

fn glue_among(present: &[PresentEntry]) -> usize
    ensures { result ≡ count_by (λ (e : PresentEntry). e.is_glue) present.now }
{
    let mut count = 0;
    for e in present {
        if e.is_glue() {
            count += 1;
        }
    }
    count
}

fn conflicts_among(present: &[PresentEntry]) -> usize
    ensures { result ≡ count_by lost_name present.now }
{
    let mut count = 0;
    for e in present {
        if e.lost_name() {
            count += 1;
        }
    }
    count
}

fn id_of(e: Option<&PresentEntry>) -> Option<Uid>
    ensures { result ≡ option_map (λ (e : PresentEntry). e.id) (option_copied e.entry) }
{
    match e {
        Some(e) => Some(e.id),
        None => None,
    }
}

/// A child, by what orders children.
#[derive(Drop)]
struct Child {
    shown: Rdn,
    id: Uid,
}

impl Ranked for Child {
    ghost order = { λ a b. ordering_then (rdn_key_cmp (rdn_key a.shown) (rdn_key b.shown)) (uid_cmp a.id b.id) };

    fn compare(&self, other: &Child) -> Ordering {
        self.shown
            .cmp(&other.shown)
            .then(self.id.compare(&other.id))
    }
}

fn push_child(parent: Uid, e: &PresentEntry, children: &mut Items<Child>) -> Result<(), NoMemory>
    ensures { OnOk result (children.new ≡ children.old ++ (if is_shown_below parent e.now then child e.now ∷ [] else [])) }
{
    if e.is_shown_below(parent) {
        let shown = e.shown.copied()?;
        children.push(Child { shown, id: e.id })?;
    }
    Ok(())
}

#[tactic(auto, using(repl_data::proofs::Loops::map_filter_more))]
fn children_below(
    alloc: Global,
    present: &[PresentEntry],
    parent: Uid,
) -> Result<Items<Child>, NoMemory>
    ensures { IfOk result (λ children. children ≡ map child (filter (is_shown_below parent) present.now)) }
{
    let mut children = Items::new(alloc);
    for e in present {
        push_child(parent, e, &mut children)?;
    }
    Ok(children)
}

#[tactic(auto, using(repl_data::proofs::Loops::map_more))]
fn ids_of(alloc: Global, children: &[Child]) -> Result<UidList, NoMemory>
    ensures { IfOk result (λ ids. ids ≡ map (λ (c : Child). c.id) children.now) }
{
    let mut ids = Items::new(alloc);
    for c in children {
        ids.push(c.id)?;
    }
    Ok(ids)
}

impl PresentEntry {
    /// It is the child that shows this relative name.
    fn is_child_named(&self, parent: Uid, rdn: &Rdn) -> bool
        ensures { result ≡ (is_shown_below parent self.now && same_rdn self.now.shown rdn.now) }
    {
        self.is_shown_below(parent) && same_rdn(&self.shown, rdn)
    }
}

fn child_named<'a>(present: &'a [PresentEntry], parent: Uid, rdn: &Rdn) -> Option<&'a PresentEntry>
    ensures { option_copied result ≡ find (λ (e : PresentEntry). is_shown_below parent e && same_rdn e.shown rdn.now) present.now }
{
    present.iter().find(|e| e.is_child_named(parent, rdn))
}

fn child_id(present: &[PresentEntry], parent: Uid, rdn: &Rdn) -> Option<Uid>
    ensures { result ≡ option_map (λ (e : PresentEntry). e.id) (find (λ (e : PresentEntry). same_rdn e.shown rdn.now) (filter (is_shown_below parent) present.now)) }
{
    id_of(child_named(present, parent, rdn))
}

/// One step of the way up from an entry: its relative name, if this is the entry, and its parent.
fn climb(e: &PresentEntry, up: Uid, path: &mut Items<Rdn>) -> Result<Uid, NoMemory>
    ensures path { OnOk result (path.new ≡ path.old ++ (if uid_eq e.now.id up && not (uid_eq up suffix_id) then e.now.shown ∷ [] else [])) }
    ensures up { IfOk result (λ next. next ≡ (if uid_eq e.now.id up then e.now.parent else up)) }
{
    if e.has_id(up) && !same_id(up, Uid::SUFFIX) {
        path.push(e.shown.copied()?)?;
    }
    if e.has_id(up) { Ok(e.parent) } else { Ok(up) }
}

/// The shown relative names from an entry up to below the suffix.
fn path_of(alloc: Global, present: &[PresentEntry], id: Uid) -> Result<Items<Rdn>, NoMemory>
    ensures { IfOk result (λ path. path ≡ path_among (reverse present.now) id) }
{
    let mut path = Items::new(alloc);
    let mut up = id;
    let mut left = present.len();
    while left > 0 {
        left -= 1;
        up = climb(&present[left], up, &mut path)?;
    }
    Ok(path)
}

#[tactic(auto, using(repl_data::proofs::Loops::map_more))]
fn tombstone_ids(alloc: Global, gone: &[Tombstone]) -> Result<UidList, NoMemory>
    ensures { IfOk result (λ ids. ids ≡ map (λ (e : Tombstone). e.id) gone.now) }
{
    let mut ids = Items::new(alloc);
    for e in gone {
        ids.push(e.id)?;
    }
    Ok(ids)
}

/// A present entry as it is listed: its shown relative names from the suffix down, and what shows.
#[derive(Drop)]
struct Listed {
    path: Items<Rdn>,
    shown: ShownEntry,
}

fn compare_paths(a: &[Rdn], b: &[Rdn]) -> Ordering
    ensures { result ≡ slice_cmp (λ (x : Rdn) (y : Rdn). rdn_key_cmp (rdn_key x) (rdn_key y)) a.now b.now }
{
    a.cmp(b)
}

impl Ranked for Listed {
    ghost order = { λ a b. ordering_then (slice_cmp (λ (x : Rdn) (y : Rdn). rdn_key_cmp (rdn_key x) (rdn_key y)) a.path b.path) (uid_cmp a.shown.id b.shown.id) };

    fn compare(&self, other: &Listed) -> Ordering {
        let paths = compare_paths(self.path.as_slice(), other.path.as_slice());
        paths.then(self.shown.id.compare(&other.shown.id))
    }
}

#[tactic(auto, using(repl_data::proofs::Loops::map_more))]
fn entries_of(alloc: Global, listed: &[Listed]) -> Result<ShownEntryList, NoMemory>
    ensures { IfOk result (λ entries. entries ≡ map (λ (l : Listed). l.shown) listed.now) }
{
    let mut entries = Items::new(alloc);
    for one in listed {
        let shown = one.shown.copied()?;
        entries.push(shown)?;
    }
    Ok(entries)
}

impl PlainView {
    /// The view of a list of changes, whatever their order. Takes memory for some copies of the
    /// changes, and time in proportion to the entries times the changes, and to the square of the
    /// present entries and of the values of each entry.
    pub fn of(alloc: Global, suffix: &Suffix, changes: &[Change]) -> Result<PlainView, NoMemory>
        ensures view { IfOk result (λ v. v ≡ view_of suffix.now changes.now) }
    {
        let facts = all_facts(alloc, suffix, changes)?;
        let present = present_of(alloc, facts.as_slice())?;
        let gone = gone_of(alloc, facts.as_slice(), present.as_slice())?;
        Ok(PlainView {
            suffix: suffix.name.copied()?,
            present: present_entries(alloc, present.as_slice())?,
            gone: tombstones(alloc, gone.as_slice())?,
        })
    }

    /// The suffix entry, or an entry that was ever added. Takes time in proportion to the entries.
    pub fn is_known(&self, id: Uid) -> bool
        ensures { result ≡ is_known_in self.now id }
    {
        let present = is_present(self.present.as_slice(), id);
        let gone = is_gone(self.gone.as_slice(), id);
        or(present, gone)
    }

    /// How many present entries are glue.
    pub fn glue_count(&self) -> usize
        ensures { result ≡ glue_count self.now }
    {
        glue_among(self.present.as_slice())
    }

    /// How many present entries lost their name.
    pub fn conflict_count(&self) -> usize
        ensures { result ≡ conflict_count self.now }
    {
        conflicts_among(self.present.as_slice())
    }
}

impl PlainView {
    /// The name that an entry shows.
    fn dn(&self, alloc: Global, id: Uid) -> Result<Bytes, NoMemory>
        ensures { IfOk result (λ dn. dn ≡ dn_of self.now id) }
    {
        let path = path_of(alloc, self.present.as_slice(), id)?;
        let dn = dn_text(alloc, self.suffix.as_slice(), path.as_slice())?;
        Ok(dn)
    }

    /// The name that an entry has, below its parent's shown name.
    fn contested_dn(&self, alloc: Global, e: &PresentEntry) -> Result<Bytes, NoMemory>
        ensures { IfOk result (λ dn. dn ≡ dn_below self.now (e.now.name ∷ path_of self.now e.now.parent)) }
    {
        let mut path = Items::new(alloc);
        path.push(e.name.copied()?)?;
        let above = path_of(alloc, self.present.as_slice(), e.parent)?;
        path.append(above)?;
        let dn = dn_text(alloc, self.suffix.as_slice(), path.as_slice())?;
        Ok(dn)
    }

    /// The name that an entry lost.
    fn lost_dn(&self, alloc: Global, e: &PresentEntry) -> Result<Option<Bytes>, NoMemory>
        ensures { IfOk result (λ dn. dn ≡ lost_dn self.now e.now) }
    {
        if e.lost_name() {
            let dn = self.contested_dn(alloc, e)?;
            Ok(Some(dn))
        } else {
            Ok(None)
        }
    }

    /// A present entry, as it shows.
    fn present_shown(&self, alloc: Global, e: &PresentEntry) -> Result<ShownEntry, NoMemory>
        ensures { IfOk result (λ shown. shown ≡ present_shown self.now e.now) }
    {
        let dn = self.dn(alloc, e.id)?;
        let lost = self.lost_dn(alloc, e)?;
        shown_entry::present_shown(alloc, e.id, dn, e.is_glue(), lost, e.users())
    }

    fn tombstone_dn(&self, alloc: Global, id: Uid) -> Result<Bytes, NoMemory>
        ensures { IfOk result (λ dn. dn ≡ dn_below self.now (tombstone_rdn id ∷ [])) }
    {
        let mut path = Items::new(alloc);
        path.push(tombstone_rdn(alloc, id)?)?;
        let dn = dn_text(alloc, self.suffix.as_slice(), path.as_slice())?;
        Ok(dn)
    }

    /// A tombstone, as it shows: by its id, directly below the suffix.
    fn tombstone_shown(&self, alloc: Global, e: &Tombstone) -> Result<ShownEntry, NoMemory>
        ensures { IfOk result (λ shown. shown ≡ tombstone_shown self.now e.now) }
    {
        let dn = self.tombstone_dn(alloc, e.id)?;
        shown_entry::tombstone_shown(alloc, e.id, dn, e.parent, e.users())
    }

    /// A present entry, as it is listed.
    #[tactic(auto, unfolding(crate::specs::Listing::listed))]
    fn listed(&self, alloc: Global, e: &PresentEntry) -> Result<Listed, NoMemory>
        ensures { IfOk result (λ one. one ≡ listed self.now e.now) }
    {
        let mut path = path_of(alloc, self.present.as_slice(), e.id)?.into_vec();
        path.reverse();
        let shown = self.present_shown(alloc, e)?;
        Ok(Listed {
            path: Items::from_vec(path),
            shown,
        })
    }

    fn each_listed(
        &self,
        alloc: Global,
        present: &[PresentEntry],
    ) -> Result<Items<Listed>, NoMemory>
        ensures { IfOk result (λ all. all ≡ map (listed self.now) present.now) }
    {
        let mut all = Items::new(alloc);
        for e in present {
            let one = self.listed(alloc, e)?;
            all.push(one)?;
        }
        Ok(all)
    }

    /// The present entries as they show, parents first and siblings in order of shown relative name.
    /// Takes time in proportion to the square of the present entries.
    pub fn dump(&self, alloc: Global) -> Result<ShownEntryList, NoMemory>
        ensures entries { IfOk result (λ entries. entries ≡ dump_of self.now) }
    {
        let all = self.each_listed(alloc, self.present.as_slice())?;
        let sorted = in_order(alloc, all)?;
        let entries = entries_of(alloc, sorted.as_slice())?;
        Ok(entries)
    }
}

impl View for PlainView {
    ghost view = { λ v. v };

    fn suffix_name(&self) -> &[u8] {
        self.suffix.as_slice()
    }

    fn root(&self) -> Uid {
        Uid::SUFFIX
    }

    /// Takes time in proportion to the present entries.
    fn child(&self, parent: Uid, rdn: &Rdn) -> Option<Uid> {
        child_id(self.present.as_slice(), parent, rdn)
    }

    /// Takes time in proportion to the present entries, and to the square of the children.
    fn children(&self, alloc: Global, parent: Uid) -> Result<UidList, NoMemory> {
        let children = children_below(alloc, self.present.as_slice(), parent)?;
        let sorted = in_order(alloc, children)?;
        let ids = ids_of(alloc, sorted.as_slice())?;
        Ok(ids)
    }

    /// Takes time in proportion to the present entries.
    fn entry(&self, alloc: Global, id: Uid) -> Result<Option<ShownEntry>, NoMemory> {
        match present_at(self.present.as_slice(), id) {
            Some(e) => Ok(Some(self.present_shown(alloc, e)?)),
            None => Ok(None),
        }
    }

    fn tombstones(&self, alloc: Global) -> Result<UidList, NoMemory> {
        tombstone_ids(alloc, self.gone.as_slice())
    }

    fn tombstone(&self, alloc: Global, id: Uid) -> Result<Option<ShownEntry>, NoMemory> {
        match gone_at(self.gone.as_slice(), id) {
            Some(e) => Ok(Some(self.tombstone_shown(alloc, e)?)),
            None => Ok(None),
        }
    }

    fn name(&self, id: Uid) -> Option<&Rdn> {
        match present_at(self.present.as_slice(), id) {
            Some(e) => Some(&e.name),
            None => match gone_at(self.gone.as_slice(), id) {
                Some(e) => Some(&e.name),
                None => None,
            },
        }
    }

    fn parent(&self, id: Uid) -> Option<Uid> {
        if same_id(id, Uid::SUFFIX) {
            return None;
        }
        match present_at(self.present.as_slice(), id) {
            Some(e) => Some(e.parent),
            None => match gone_at(self.gone.as_slice(), id) {
                Some(e) => Some(e.parent),
                None => None,
            },
        }
    }

    /// Takes time in proportion to the present entries.
    fn own(&self, id: Uid) -> Option<&[Shown]> {
        match present_at(self.present.as_slice(), id) {
            Some(e) => Some(e.users().as_slice()),
            None => None,
        }
    }

    /// Takes time in proportion to the present entries.
    fn standing(&self, id: Uid) -> Option<Standing> {
        match present_at(self.present.as_slice(), id) {
            Some(e) => Some(e.standing()),
            None => None,
        }
    }

    /// Takes time in proportion to the tombstones.
    fn tombstone_own(&self, id: Uid) -> Option<&[Shown]> {
        match gone_at(self.gone.as_slice(), id) {
            Some(e) => Some(e.users().as_slice()),
            None => None,
        }
    }

    /// Takes time in proportion to the tombstones.
    fn tombstone_parent(&self, id: Uid) -> Option<Uid> {
        match gone_at(self.gone.as_slice(), id) {
            Some(e) => Some(e.parent),
            None => None,
        }
    }
}
