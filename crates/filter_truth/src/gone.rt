//! What a tombstone shows, looked at where its view keeps it, and the truth of a filter for it.

ghost use Rattle.std.specs.Prelude.{◌≡◌, ◌||◌, Some, map, codes};
ghost use Rattle.repl_data.specs.Ordered.{Rises};
ghost use Rattle.repl_data.specs.Lent.{tombstone_own_of, tombstone_parent_of};
ghost use Rattle.ldap_types.specs.declared.request.Filter.{Filter};
ghost use Rattle.filter_truth.specs.Three.{all_of, any_of};
ghost use Rattle.filter_truth.specs.Truth.{name_of, shows, truth_by};
ghost use Rattle.filter_truth.specs.Prepared.{passes, ready_by, StandsFor};
ghost use Rattle.filter_truth.specs.Lent.{gone_shown_at, id_passes};

use crate::lent::{is_named, passes_text, shows};
use crate::prepared::Prepared;
use crate::test::Assertion;
use crate::three::{Truth, both, either, negated, of_bool};
use repl_data::{Shown, Uid, View, or};

/// Whether a class of its own passes, or that of tombstones.
fn shows_gone_class(own: &[Shown], asserted: &Assertion) -> bool
    requires { Rises name_of own.now }
    ensures { result ≡ (passes asserted.now.attr.name asserted.now.test (codes "nstombstone") || shows own.now asserted.now.attr.name (passes asserted.now.attr.name asserted.now.test)) }
{
    or(
        passes_text(asserted, b"nstombstone".as_slice()),
        shows(own, asserted),
    )
}

/// Whether the id of the parent that it had passes.
fn shows_gone_parent<V: View>(view: &V, id: Uid, asserted: &Assertion) -> bool
    ensures { result ≡ id_passes (passes asserted.now.attr.name asserted.now.test) (tombstone_parent_of (V.view view.now) id) }
{
    match view.tombstone_parent(id) {
        Some(parent) => passes_text(asserted, parent.text().as_slice()),
        None => false,
    }
}

/// Whether the tombstone of this id shows a value that passes, by its user attributes as they are kept. The view is
/// asked for its parent only where that matters.
fn shows_gone<V: View>(view: &V, id: Uid, own: &[Shown], asserted: &Assertion) -> bool
    requires rises { Rises name_of own.now }
    requires lent { tombstone_own_of (V.view view.now) id ≡ Some own.now }
    ensures { result ≡ gone_shown_at (V.view view.now) id asserted.now.attr.name (passes asserted.now.attr.name asserted.now.test) }
{
    if is_named(asserted, b"objectclass".as_slice()) {
        return shows_gone_class(own, asserted);
    }
    if is_named(asserted, b"nsuniqueid".as_slice()) {
        return passes_text(asserted, id.text().as_slice());
    }
    if is_named(asserted, b"nsparentuniqueid".as_slice()) {
        return shows_gone_parent(view, id, asserted);
    }
    shows(own, asserted)
}

#[cycle(told_gone)]
fn told_gone<V: View>(filter: &Prepared, view: &V, id: Uid, own: &[Shown]) -> Truth
    requires rises { Rises name_of own.now }
    requires lent { tombstone_own_of (V.view view.now) id ≡ Some own.now }
    ensures { result ≡ ready_by (gone_shown_at (V.view view.now) id) filter.now }
{
    match filter {
        Prepared::And(inside) => all_told_gone(inside.as_slice(), view, id, own),
        Prepared::Or(inside) => any_told_gone(inside.as_slice(), view, id, own),
        Prepared::Not(inside) => negated(told_gone(inside.get(), view, id, own)),
        Prepared::Asserts(asserted) => of_bool(shows_gone(view, id, own, asserted)),
        Prepared::Unreadable => Truth::Undefined,
        Prepared::Nowhere => Truth::No,
    }
}

/// Whether all of them hold. After the first No none is looked at.
#[cycle(told_gone)]
fn all_told_gone<V: View>(filters: &[Prepared], view: &V, id: Uid, own: &[Shown]) -> Truth
    requires rises { Rises name_of own.now }
    requires lent { tombstone_own_of (V.view view.now) id ≡ Some own.now }
    ensures { result ≡ all_of (map (ready_by (gone_shown_at (V.view view.now) id)) filters.now) }
{
    let mut truth = Truth::Yes;
    for filter in filters {
        truth = both(truth, told_gone(filter, view, id, own));
        if truth == Truth::No {
            return Truth::No;
        }
    }
    truth
}

/// Whether one of them holds. After the first Yes none is looked at.
#[cycle(told_gone)]
fn any_told_gone<V: View>(filters: &[Prepared], view: &V, id: Uid, own: &[Shown]) -> Truth
    requires rises { Rises name_of own.now }
    requires lent { tombstone_own_of (V.view view.now) id ≡ Some own.now }
    ensures { result ≡ any_of (map (ready_by (gone_shown_at (V.view view.now) id)) filters.now) }
{
    let mut truth = Truth::No;
    for filter in filters {
        truth = either(truth, told_gone(filter, view, id, own));
        if truth == Truth::Yes {
            return Truth::Yes;
        }
    }
    truth
}

impl Prepared {
    /// The truth of the filter for the tombstone of this id, whose user attributes the view lends, with all that the
    /// view derives of it: its class, its id and its parent's. Takes no memory; each assertion looks its attribute up
    /// by halves.
    pub fn truth_of_tombstone<V: View>(&self, view: &V, id: Uid, own: &[Shown]) -> Truth
        requires rises { Rises name_of own.now }
        requires lent { tombstone_own_of (V.view view.now) id ≡ Some own.now }
        ensures { (f : Filter) → StandsFor self.now f → result ≡ truth_by (gone_shown_at (V.view view.now) id) f }
    {
        told_gone(self, view, id, own)
    }
}
