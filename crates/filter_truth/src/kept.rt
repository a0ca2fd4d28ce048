//! The truth of a filter for an entry where its view keeps it.

ghost use Rattle.std.specs.Prelude.{◌≡◌, Some, None, IfSome, map};
ghost use Rattle.std.specs.List.{list_any};
ghost use Rattle.repl_data.specs.Ordered.{Rises};
ghost use Rattle.repl_data.specs.Lent.{own_of};
ghost use Rattle.ldap_types.specs.declared.request.Filter.{Filter};
ghost use Rattle.filter_truth.specs.Three.{all_of, any_of};
ghost use Rattle.filter_truth.specs.Truth.{name_of, truth_by};
ghost use Rattle.filter_truth.specs.Prepared.{ready_by, StandsFor};
ghost use Rattle.filter_truth.specs.Lent.{shown_at, asks_names, IsUntold};

use crate::lent::shows_at;
use crate::prepared::Prepared;
use crate::three::{Truth, both, either, negated, of_bool};
use repl_data::{Shown, Uid, View};

#[cycle(told_at)]
fn told_at<V: View>(filter: &Prepared, view: &V, id: Uid, own: &[Shown]) -> Option<Truth>
    requires rises { Rises name_of own.now }
    requires lent { own_of (V.view view.now) id ≡ Some own.now }
    ensures told { IfSome result (λ t. t ≡ ready_by (shown_at (V.view view.now) id) filter.now) }
    ensures untold { result ≡ None → IsUntold (V.view view.now) id (asks_names filter.now) }
{
    match filter {
        Prepared::And(inside) => all_told_at(inside.as_slice(), view, id, own),
        Prepared::Or(inside) => any_told_at(inside.as_slice(), view, id, own),
        Prepared::Not(inside) => match told_at(inside.get(), view, id, own) {
            Some(truth) => Some(negated(truth)),
            None => None,
        },
        Prepared::Asserts(asserted) => match shows_at(view, id, own, asserted) {
            Some(yes) => Some(of_bool(yes)),
            None => None,
        },
        Prepared::Unreadable => Some(Truth::Undefined),
        Prepared::Nowhere => Some(Truth::No),
    }
}

/// Whether all of them hold. After the first No none is looked at.
#[cycle(told_at)]
fn all_told_at<V: View>(filters: &[Prepared], view: &V, id: Uid, own: &[Shown]) -> Option<Truth>
    requires rises { Rises name_of own.now }
    requires lent { own_of (V.view view.now) id ≡ Some own.now }
    ensures told { IfSome result (λ t. t ≡ all_of (map (ready_by (shown_at (V.view view.now) id)) filters.now)) }
    ensures untold { result ≡ None → IsUntold (V.view view.now) id (list_any asks_names filters.now) }
{
    let mut truth = Truth::Yes;
    for filter in filters {
        let Some(one) = told_at(filter, view, id, own) else {
            return None;
        };
        truth = both(truth, one);
        if truth == Truth::No {
            return Some(Truth::No);
        }
    }
    Some(truth)
}

/// Whether one of them holds. After the first Yes none is looked at.
#[cycle(told_at)]
fn any_told_at<V: View>(filters: &[Prepared], view: &V, id: Uid, own: &[Shown]) -> Option<Truth>
    requires rises { Rises name_of own.now }
    requires lent { own_of (V.view view.now) id ≡ Some own.now }
    ensures told { IfSome result (λ t. t ≡ any_of (map (ready_by (shown_at (V.view view.now) id)) filters.now)) }
    ensures untold { result ≡ None → IsUntold (V.view view.now) id (list_any asks_names filters.now) }
{
    let mut truth = Truth::No;
    for filter in filters {
        let Some(one) = told_at(filter, view, id, own) else {
            return None;
        };
        truth = either(truth, one);
        if truth == Truth::Yes {
            return Some(Truth::Yes);
        }
    }
    Some(truth)
}

impl Prepared {
    /// The truth of the filter for the present entry of this id, whose user attributes the view lends, with all that
    /// the view derives of it. Takes no memory; each assertion looks its attribute up by halves, and the view is asked
    /// how the entry stands only by one of `nsds5ReplConflict`, or of the class `glue`.
    ///
    /// Not told is only the truth of a filter that looks at the values of `nsds5ReplConflict`, for an entry that lost
    /// its name: the name's text has to be made for it.
    pub fn truth_at<V: View>(&self, view: &V, id: Uid, own: &[Shown]) -> Option<Truth>
        requires rises { Rises name_of own.now }
        requires lent { own_of (V.view view.now) id ≡ Some own.now }
        ensures told { IfSome result (λ t. (f : Filter) → StandsFor self.now f → t ≡ truth_by (shown_at (V.view view.now) id) f) }
        ensures untold { result ≡ None → IsUntold (V.view view.now) id (asks_names self.now) }
    {
        told_at(self, view, id, own)
    }
}
