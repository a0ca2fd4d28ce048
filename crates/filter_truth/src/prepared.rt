//! A filter made ready, and its truth.

ghost use Rattle.std.specs.Prelude.{◌≡◌, List, map, IfOk};
ghost use Rattle.repl_data.specs.Ordered.{Rises};
ghost use Rattle.ldap_types.specs.declared.request.Filter.{Filter};
ghost use Rattle.filter_truth.specs.Three.{of_bool, all_of, any_of};
ghost use Rattle.filter_truth.specs.Truth.{Shows, name_of, shows, told, is_there, attr_of, asserted, compares, with_pieces, truth, truth_by};
ghost use Rattle.filter_truth.specs.Prepared.{maybe_meant, ready_by, StandsFor};

use crate::lent::shows;
use crate::reading::{attr_of, comparison, substrings};
use crate::test::{Assertion, Comparison, Test};
use crate::three::{Truth, both, either, negated, of_bool};
use ldap_types::{Boxed, Bytes, Filter};
use repl_data::{NoMemory, Shown};
use std::alloc::Global;

/// A filter made ready: its names, values and pieces are keys.
#[derive(Debug, Drop)]
pub enum Prepared {
    And(PreparedList),
    Or(PreparedList),
    Not(Boxed<Prepared>),
    Asserts(Assertion),
    /// What it asserts can't be read, or is of no kind that is known.
    Unreadable,
    /// It asks for an attribute whose name can't be read, which is nowhere.
    Nowhere,
}

/// Filters inside another.
pub type PreparedList = sqlite_items::Items<Prepared>;

fn asserting(asserted: Option<Assertion>) -> Prepared
    ensures { (shown : Shows) → ready_by shown result ≡ told shown (maybe_meant asserted) }
{
    match asserted {
        Some(asserted) => Prepared::Asserts(asserted),
        None => Prepared::Unreadable,
    }
}

fn compares(
    alloc: Global,
    how: Comparison,
    name: &Bytes,
    value: &Bytes,
) -> Result<Prepared, NoMemory>
    ensures { IfOk result (λ p. (shown : Shows) → ready_by shown p ≡ told shown (asserted (compares how value.now) (attr_of name.now))) }
{
    let asserted = comparison(alloc, how, name.as_slice(), value.as_slice())?;
    Ok(asserting(asserted))
}

fn present(alloc: Global, name: &Bytes) -> Result<Prepared, NoMemory>
    ensures { IfOk result (λ p. (shown : Shows) → ready_by shown p ≡ of_bool (is_there shown (attr_of name.now))) }
{
    match attr_of(alloc, name.as_slice())? {
        Some(attr) => Ok(Prepared::Asserts(Assertion {
            attr,
            test: Test::Any,
        })),
        None => Ok(Prepared::Nowhere),
    }
}

/// Makes a filter ready for any number of entries, in time and memory in proportion to its size. Whatever an entry
/// shows, what is made has the filter's truth.
#[cycle(prepare)]
pub fn prepare(alloc: Global, filter: &Filter) -> Result<Prepared, NoMemory>
    ensures { IfOk result (λ p. StandsFor p filter.now) }
{
    match filter {
        Filter::And(inside) => Ok(Prepared::And(prepare_all(alloc, inside.as_slice())?)),
        Filter::Or(inside) => Ok(Prepared::Or(prepare_all(alloc, inside.as_slice())?)),
        Filter::Not(inside) => {
            let inner = prepare(alloc, inside.get())?;
            Ok(Prepared::Not(Boxed::new(alloc, inner)?))
        }
        Filter::Equality { name, value } => compares(alloc, Comparison::Equal, name, value),
        Filter::Approximate { name, value } => compares(alloc, Comparison::Equal, name, value),
        Filter::AtLeast { name, value } => compares(alloc, Comparison::AtLeast, name, value),
        Filter::AtMost { name, value } => compares(alloc, Comparison::AtMost, name, value),
        Filter::Present { name } => present(alloc, name),
        Filter::Substrings {
            name,
            first,
            middle,
            last,
        } => {
            let asserted = substrings(alloc, name.as_slice(), first, middle.as_slice(), last)?;
            Ok(asserting(asserted))
        }
        Filter::Extensible => Ok(Prepared::Unreadable),
    }
}

#[cycle(prepare)]
fn prepare_all(alloc: Global, filters: &[Filter]) -> Result<PreparedList, NoMemory>
    ensures { IfOk result (λ all. (shown : Shows) → map (ready_by shown) all ≡ map (truth_by shown) filters.now) }
{
    let mut all = PreparedList::new(alloc);
    for filter in filters {
        all.push(prepare(alloc, filter)?)?;
    }
    Ok(all)
}

#[cycle(told)]
fn told(filter: &Prepared, attrs: &[Shown]) -> Truth
    requires { Rises name_of attrs.now }
    ensures { result ≡ ready_by (shows attrs.now) filter.now }
{
    match filter {
        Prepared::And(inside) => all_told(inside.as_slice(), attrs),
        Prepared::Or(inside) => any_told(inside.as_slice(), attrs),
        Prepared::Not(inside) => negated(told(inside.get(), attrs)),
        Prepared::Asserts(asserted) => of_bool(shows(attrs, asserted)),
        Prepared::Unreadable => Truth::Undefined,
        Prepared::Nowhere => Truth::No,
    }
}

/// Whether all of them hold. After the first No none is looked at.
#[cycle(told)]
fn all_told(filters: &[Prepared], attrs: &[Shown]) -> Truth
    requires { Rises name_of attrs.now }
    ensures { result ≡ all_of (map (ready_by (shows attrs.now)) filters.now) }
{
    let mut truth = Truth::Yes;
    for filter in filters {
        truth = both(truth, told(filter, attrs));
        if truth == Truth::No {
            return Truth::No;
        }
    }
    truth
}

/// Whether one of them holds. After the first Yes none is looked at.
#[cycle(told)]
fn any_told(filters: &[Prepared], attrs: &[Shown]) -> Truth
    requires { Rises name_of attrs.now }
    ensures { result ≡ any_of (map (ready_by (shows attrs.now)) filters.now) }
{
    let mut truth = Truth::No;
    for filter in filters {
        truth = either(truth, told(filter, attrs));
        if truth == Truth::Yes {
            return Truth::Yes;
        }
    }
    truth
}

impl Prepared {
    /// The truth of the filter for an entry that shows these attributes, which stand in order of name. Takes no
    /// memory; each assertion looks its attribute up by halves.
    pub fn truth(&self, attrs: &[Shown]) -> Truth
        requires { Rises name_of attrs.now }
        ensures { (f : Filter) → StandsFor self.now f → result ≡ truth f attrs.now }
    {
        told(self, attrs)
    }
}
