//! Lists in rising order of a key of bytes: look-ups by binary search, and what is put in its place.

ghost use Rattle.std.specs.Prelude.{◌≡◌, ◌≤◌, ◌<◌, ℕ, List, true, false, length, find, OnOk, MatchResult};
ghost use Rattle.std.specs.Option.{option_copied};
ghost use Rattle.std.specs.List.Sorted.{IsPartitionPoint};
ghost use Rattle.std.specs.Ordering.{is_lt};
ghost use Rattle.repl_data.specs.Order.{bytes_cmp, bytes_eq, put_by};
ghost use Rattle.repl_data.specs.Ordered.{Rises, IsAt, IsGap};

use crate::change::{Attr, Ava, Shown, Val};
use crate::items::{Bytes, Items, NoMemory};
use crate::truth::same_bytes;

/// What stands in order of a key.
pub trait Keyed {
    ghost key_of: { Self → List ℕ };

    fn key(&self) -> &[u8]
        ensures { result.now ≡ key_of self.now };
}

impl Keyed for Val {
    ghost key_of = { λ v. v.key };

    fn key(&self) -> &[u8] {
        self.key.as_slice()
    }
}

impl Keyed for Attr {
    ghost key_of = { λ a. a.attr.name };

    fn key(&self) -> &[u8] {
        self.attr.name.as_slice()
    }
}

impl Keyed for Shown {
    ghost key_of = { λ s. s.attr.name };

    fn key(&self) -> &[u8] {
        self.attr.name.as_slice()
    }
}

impl Keyed for Ava {
    ghost key_of = { λ a. a.attr.name };

    fn key(&self) -> &[u8] {
        self.attr.name.as_slice()
    }
}

impl Keyed for Bytes {
    ghost key_of = { λ key. key };

    fn key(&self) -> &[u8] {
        self.as_slice()
    }
}

/// The first bytes are below the second ones.
pub fn is_below(a: &[u8], b: &[u8]) -> bool
    ensures { result ≡ is_lt (bytes_cmp a.now b.now) }
{
    a.cmp(b).is_lt()
}

/// How many items are below the key.
fn count_below<T: Keyed>(items: &[T], key: &[u8]) -> usize
    requires { Rises T.key_of items.now }
    ensures within { result ≤ length items.now }
    ensures parted { IsPartitionPoint (λ x. is_lt (bytes_cmp (T.key_of x) key.now) ≡ true) (λ x. is_lt (bytes_cmp (T.key_of x) key.now) ≡ false) items.now result }
{
    items.partition_point(|item| is_below(item.key(), key))
}

/// The place of the item that has the key, or else the place that the key would have. In time logarithmic in the
/// items.
pub fn place_of<T: Keyed>(items: &[T], key: &[u8]) -> Result<usize, usize>
    requires { Rises T.key_of items.now }
    ensures within { MatchResult result (λ at. at < length items.now) (λ at. at ≤ length items.now) }
    ensures place { MatchResult result (λ at. IsAt T.key_of key.now items.now at) (λ at. IsGap T.key_of key.now items.now at) }
{
    let at = count_below(items, key);
    if at < items.len() && same_bytes(items[at].key(), key) {
        Ok(at)
    } else {
        Err(at)
    }
}

/// The item that has the key, at the cost of `place_of`.
pub fn found_by_key<'a, T: Keyed>(items: &'a [T], key: &[u8]) -> Option<&'a T>
    requires { Rises T.key_of items.now }
    ensures { option_copied result ≡ find (λ x. bytes_eq key.now (T.key_of x)) items.now }
{
    match place_of(items, key) {
        Ok(at) => Some(&items[at]),
        Err(_) => None,
    }
}

/// Puts the item to its place, instead of one of the same key. At the cost of `place_of` and of one move of the
/// items behind it.
pub fn put_by_key<T: Keyed + Drop>(item: T, items: &mut Items<T>) -> Result<(), NoMemory>
    requires { Rises T.key_of items.old }
    ensures value { OnOk result (items.new ≡ put_by T.key_of bytes_cmp item items.old) }
    ensures ordered { OnOk result (Rises T.key_of items.new) }
{
    match place_of(items.as_slice(), item.key()) {
        Ok(at) => {
            items.set(at, item);
            Ok(())
        }
        Err(at) => {
            items.insert(at, item)?;
            Ok(())
        }
    }
}
