//! The walk from the suffix to the entry of a name.

ghost use Rattle.std.specs.Prelude.{◌≡◌, IfOk};
ghost use Rattle.repl_data.specs.Order.{suffix_id};
ghost use Rattle.dn_text.specs.Case.{Gives};
ghost use Rattle.dn_text.specs.Names.{below, place_of, shown_name, found, entry_at};

use crate::fault::JudgeFault;
use crate::refusing::no_such_object;
use repl_data::{Bytes, NoMemory, Rdn, Uid, View};
use std::alloc::Global;

/// Where a name leads.
#[derive(Clone, Copy, Debug)]
pub enum Place {
    /// To this entry.
    There(Uid),
    /// To none. The nearest present entry above is this one.
    Nearest(Uid),
}

/// Where the name leads that has one relative name more than that of a place.
fn below<V: View>(view: &V, rdn: &Rdn, place: Place) -> Place
    ensures { result ≡ below (V.view view.now) rdn.now place }
{
    match place {
        Place::There(parent) => match view.child(parent, rdn) {
            Some(child) => Place::There(child),
            None => Place::Nearest(parent),
        },
        Place::Nearest(parent) => Place::Nearest(parent),
    }
}

/// Where a name leads, by its relative names above the suffix. In as many look-ups as these are.
#[tactic(auto, using(crate::proofs::Walks::place_more, crate::proofs::Walks::place_end, crate::proofs::Walks::place_whole))]
fn place_of<V: View>(view: &V, rdns: &[Rdn]) -> Place
    ensures { result ≡ place_of (V.view view.now) rdns.now }
{
    let mut place = Place::There(view.root());
    let mut left = rdns.len();
    while left > 0 {
        left -= 1;
        place = below(view, &rdns[left], place);
    }
    place
}

/// The name that an entry shows.
fn shown_name<V: View>(alloc: Global, view: &V, id: Uid) -> Result<Bytes, NoMemory>
    ensures { IfOk result (λ name. name ≡ shown_name (V.view view.now) id) }
{
    match view.entry(alloc, id)? {
        Some(entry) => Ok(entry.dn),
        None => Ok(Bytes::new(alloc)),
    }
}

/// The entry of a name.
pub fn entry_at<V: View>(alloc: Global, view: &V, rdns: &[Rdn]) -> Result<Uid, JudgeFault>
    ensures { Gives result (entry_at (V.view view.now) rdns.now) }
{
    match place_of(view, rdns) {
        Place::There(id) => Ok(id),
        Place::Nearest(above) => {
            let matched = shown_name(alloc, view, above)?;
            Err(no_such_object(alloc, matched))
        }
    }
}
