//! What a present entry shows, looked at where its view keeps it.

ghost use Rattle.std.specs.Prelude.{◌≡◌, true, false, Some, None, IfSome, codes};
ghost use Rattle.std.specs.List.{list_any};
ghost use Rattle.repl_data.specs.declared.change.Val.{Val};
ghost use Rattle.repl_data.specs.Order.{bytes_eq};
ghost use Rattle.repl_data.specs.Ordered.{Rises};
ghost use Rattle.repl_data.specs.Lent.{own_of, standing_of};
ghost use Rattle.filter_truth.specs.Truth.{name_of, shows};
ghost use Rattle.filter_truth.specs.Prepared.{passes};
ghost use Rattle.filter_truth.specs.Lent.{shown_at, looks, looks_at_names, IsUntold};

use crate::found::found;
use crate::test::{Assertion, Test, passes};
use repl_data::{Shown, Standing, Uid, Val, View, same_bytes};

fn any_passes(asserted: &Assertion, vals: &[Val]) -> bool
    ensures { result ≡ list_any (λ (v : Val). passes asserted.now.attr.name asserted.now.test v.key) vals.now }
{
    vals.iter().any(|val| passes(&asserted.attr, &asserted.test, val.key.as_slice()))
}

/// Whether one of these attributes is the one that is asserted of, and has a value that passes.
pub(crate) fn shows(attrs: &[Shown], asserted: &Assertion) -> bool
    requires { Rises name_of attrs.now }
    ensures { result ≡ shows attrs.now asserted.now.attr.name (passes asserted.now.attr.name asserted.now.test) }
{
    match found(attrs, asserted.attr.name.as_slice()) {
        Some(one) => any_passes(asserted, one.vals.as_slice()),
        None => false,
    }
}

/// The assertion is about the attribute of this name.
pub(crate) fn is_named(asserted: &Assertion, name: &[u8]) -> bool
    ensures { result ≡ bytes_eq asserted.now.attr.name name.now }
{
    same_bytes(asserted.attr.name.as_slice(), name)
}

/// Whether a value of this key passes.
pub(crate) fn passes_text(asserted: &Assertion, key: &[u8]) -> bool
    ensures { result ≡ passes asserted.now.attr.name asserted.now.test key.now }
{
    passes(&asserted.attr, &asserted.test, key)
}

fn looks(test: &Test) -> bool
    ensures { result ≡ looks test.now }
{
    match test {
        Test::Any => false,
        Test::Compares { .. } | Test::Pieces { .. } => true,
    }
}

/// Whether the entry shows a class that passes. How it stands is asked only where it would be the class of glue.
fn shows_class<V: View>(view: &V, id: Uid, own: &[Shown], asserted: &Assertion) -> bool
    requires rises { Rises name_of own.now }
    requires lent { own_of (V.view view.now) id ≡ Some own.now }
    requires named { bytes_eq asserted.now.attr.name (codes "objectclass") ≡ true }
    ensures { result ≡ shown_at (V.view view.now) id asserted.now.attr.name (passes asserted.now.attr.name asserted.now.test) }
{
    if shows(own, asserted) {
        return true;
    }
    if !passes_text(asserted, b"glue".as_slice()) {
        return false;
    }
    match view.standing(id) {
        Some(standing) => standing.glue,
        None => false,
    }
}

/// Whether it tells of a conflict that passes, by how it stands. Of a lost name it can be told that it is there.
fn shows_conflict_by<V: View>(
    view: &V,
    id: Uid,
    own: &[Shown],
    asserted: &Assertion,
    standing: Standing,
) -> Option<bool>
    requires rises { Rises name_of own.now }
    requires lent { own_of (V.view view.now) id ≡ Some own.now }
    requires stands { standing_of (V.view view.now) id ≡ Some standing }
    requires named { bytes_eq asserted.now.attr.name (codes "nsds5replconflict") ≡ true }
    ensures told { IfSome result (λ yes. yes ≡ shown_at (V.view view.now) id asserted.now.attr.name (passes asserted.now.attr.name asserted.now.test)) }
    ensures untold { result ≡ None → IsUntold (V.view view.now) id (looks_at_names asserted.now) }
{
    if standing.lost {
        if looks(&asserted.test) {
            return None;
        }
        return Some(true);
    }
    if standing.glue {
        return Some(passes_text(asserted, b"deletedentryhaschildren".as_slice()));
    }
    Some(shows(own, asserted))
}

fn shows_conflict<V: View>(view: &V, id: Uid, own: &[Shown], asserted: &Assertion) -> Option<bool>
    requires rises { Rises name_of own.now }
    requires lent { own_of (V.view view.now) id ≡ Some own.now }
    requires named { bytes_eq asserted.now.attr.name (codes "nsds5replconflict") ≡ true }
    ensures told { IfSome result (λ yes. yes ≡ shown_at (V.view view.now) id asserted.now.attr.name (passes asserted.now.attr.name asserted.now.test)) }
    ensures untold { result ≡ None → IsUntold (V.view view.now) id (looks_at_names asserted.now) }
{
    match view.standing(id) {
        Some(standing) => shows_conflict_by(view, id, own, asserted, standing),
        None => Some(shows(own, asserted)),
    }
}

/// Whether the present entry of this id shows a value that passes, by its user attributes as they are kept; not told
/// where it lost its name and the text of it is asked about. How it stands is asked only where that matters.
pub(crate) fn shows_at<V: View>(
    view: &V,
    id: Uid,
    own: &[Shown],
    asserted: &Assertion,
) -> Option<bool>
    requires rises { Rises name_of own.now }
    requires lent { own_of (V.view view.now) id ≡ Some own.now }
    ensures told { IfSome result (λ yes. yes ≡ shown_at (V.view view.now) id asserted.now.attr.name (passes asserted.now.attr.name asserted.now.test)) }
    ensures untold { result ≡ None → IsUntold (V.view view.now) id (looks_at_names asserted.now) }
{
    if is_named(asserted, b"objectclass".as_slice()) {
        return Some(shows_class(view, id, own, asserted));
    }
    if is_named(asserted, b"nsuniqueid".as_slice()) {
        return Some(passes_text(asserted, id.text().as_slice()));
    }
    if is_named(asserted, b"nsds5replconflict".as_slice()) {
        return shows_conflict(view, id, own, asserted);
    }
    Some(shows(own, asserted))
}
