//! Items in an order: one more among them, and all of them sorted.

ghost use Rattle.std.specs.Prelude.{◌≡◌, ◌≤◌, ◌<◌, IfOk, OnOk, ℕ, MatchResult, length, insert, slice_set};
ghost use Rattle.std.specs.declared.cmp.Ordering.{Ordering};
ghost use Rattle.repl_data.specs.Order.{bytes_cmp, uid_cmp, put_by, in_order};

use repl_data::{Attr, AttrKey, Ava, Bytes, Items, NoMemory, Shown, Uid, Val};
use std::alloc::Global;
use std::cmp::Ordering;

/// What stands in an order.
pub trait Ranked {
    ghost order: { Self → Self → Ordering };

    fn compare(&self, other: &Self) -> Ordering
        ensures { result ≡ order self.now other.now };
}

impl Ranked for Uid {
    ghost order = { uid_cmp };

    fn compare(&self, other: &Uid) -> Ordering {
        self.csn.compare(other.csn)
    }
}

impl Ranked for Bytes {
    ghost order = { bytes_cmp };

    fn compare(&self, other: &Bytes) -> Ordering {
        self.as_slice().cmp(other.as_slice())
    }
}

impl Ranked for AttrKey {
    ghost order = { λ a b. bytes_cmp a.name b.name };

    fn compare(&self, other: &AttrKey) -> Ordering {
        self.name.compare(&other.name)
    }
}

impl Ranked for Val {
    ghost order = { λ a b. bytes_cmp a.key b.key };

    fn compare(&self, other: &Val) -> Ordering {
        self.key.compare(&other.key)
    }
}

impl Ranked for Ava {
    ghost order = { λ a b. bytes_cmp a.attr.name b.attr.name };

    fn compare(&self, other: &Ava) -> Ordering {
        self.attr.compare(&other.attr)
    }
}

impl Ranked for Attr {
    ghost order = { λ a b. bytes_cmp a.attr.name b.attr.name };

    fn compare(&self, other: &Attr) -> Ordering {
        self.attr.compare(&other.attr)
    }
}

impl Ranked for Shown {
    ghost order = { λ a b. bytes_cmp a.attr.name b.attr.name };

    fn compare(&self, other: &Shown) -> Ordering {
        self.attr.compare(&other.attr)
    }
}

/// Where an item stands among others: the place of the one that is equal to it, or else the place
/// that it goes to.
fn place<T: Ranked>(item: &T, items: &[T]) -> Result<usize, usize>
    ensures within { MatchResult result (λ at. at < length items.now) (λ at. at ≤ length items.now) }
    ensures put { MatchResult result (λ at. put_by (λ y. y) T.order item.now items.now ≡ slice_set items.now at item.now)
        (λ at. put_by (λ y. y) T.order item.now items.now ≡ insert items.now at item.now) }
{
    for (at, other) in items.iter().enumerate() {
        match item.compare(other) {
            Ordering::Less => return Err(at),
            Ordering::Equal => return Ok(at),
            Ordering::Greater => {}
        }
    }
    Err(items.len())
}

/// Puts the item to its place, instead of one that is equal to it. Takes time in proportion to the
/// number of items.
pub fn put<T: Ranked + Drop>(item: T, items: &mut Items<T>) -> Result<(), NoMemory>
    ensures { OnOk result (items.new ≡ put_by (λ y. y) T.order item items.old) }
{
    match place(&item, items.as_slice()) {
        Ok(at) => {
            items.set(at, item);
            Ok(())
        }
        Err(at) => items.insert(at, item),
    }
}

/// The items in rising order, of equal ones the first. Takes quadratic time.
pub fn in_order<T: Ranked + Drop>(alloc: Global, items: Items<T>) -> Result<Items<T>, NoMemory>
    ensures { IfOk result (λ sorted. sorted ≡ in_order T.order items) }
{
    let mut rest = items.into_vec();
    let mut sorted = Items::new(alloc);
    while let Some(item) = rest.pop() {
        put(item, &mut sorted)?;
    }
    Ok(sorted)
}
