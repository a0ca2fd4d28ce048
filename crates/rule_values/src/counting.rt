//! How many attributes an add has.

ghost use Rattle.std.specs.Prelude.{◌≡◌, ◌+◌, ◌<◌, ◌^◌, IfOk, length, map, nat_lt, not, OnOk, if◌then◌else◌};
ghost use Rattle.repl_data.specs.declared.change.Ava.{Ava};
ghost use Rattle.repl_data.specs.Order.{bytes_cmp, in_order};
ghost use Rattle.attr_keys.specs.Name.{bad_name};
ghost use Rattle.attr_keys.specs.Table.{key_of};
ghost use Rattle.repl_data.specs.Ordered.{Rises};
ghost use Rattle.rule_values.specs.Listed.{is_name, attribute_count};
ghost use Rattle.rule_values.specs.Counting.{own_key, put_key, counted_on};

use attr_keys::{AttrKey, KeyFault, attr_key};
use ldap_types::RawAttr;
use repl_data::{Ava, Bytes, BytesList, NoMemory, Rdn, put_by_key};
use std::alloc::Global;

/// The greatest number of attributes of an entry.
const MOST_ATTRIBUTES: usize = 500;

/// The keys of names that were read, in order, and how many names could not be read.
#[derive(Debug, Drop)]
struct Counted {
    keys: BytesList,
    unread: usize,
}

fn copy(key: &Bytes) -> Result<Bytes, NoMemory>
    ensures { IfOk result (λ copy. copy ≡ key.now) }
{
    let copy = key.clone()?;
    Ok(copy)
}

/// The attributes of a relative name, in order.
fn rdn_keys(alloc: Global, rdn: &Rdn) -> Result<BytesList, NoMemory>
    ensures value { IfOk result (λ keys. keys ≡ in_order bytes_cmp (map (λ (a : Ava). a.attr.name) rdn.now.avas)) }
    ensures ordered { IfOk result (Rises own_key) }
{
    let mut keys = BytesList::new(alloc);
    for ava in rdn.avas.as_slice() {
        put_by_key(copy(&ava.attr.name)?, &mut keys)?;
    }
    Ok(keys)
}

/// The key of a name, if it can be read.
fn key_of(alloc: Global, given: &RawAttr) -> Result<Option<Bytes>, NoMemory>
    ensures { IfOk result (λ key. key ≡ (if is_name given.now then Some (key_of given.now.name) else None)) }
{
    match attr_key(alloc, given.name.as_slice()) {
        Ok(AttrKey { name }) => Ok(Some(name)),
        Err(KeyFault::BadName { .. }) => Ok(None),
        Err(_) => Err(NoMemory),
    }
}

/// One name more.
fn count(alloc: Global, counted: &mut Counted, given: &RawAttr) -> Result<(), NoMemory>
    requires ordered { Rises own_key counted.old.keys }
    requires fits { counted.old.unread + 1 < 2 ^ 64 }
    ensures keys { OnOk result (counted.new.keys ≡ (if is_name given.now then put_key (key_of given.now.name) counted.old.keys else counted.old.keys)) }
    ensures unread { OnOk result (counted.new.unread ≡ (if is_name given.now then counted.old.unread else counted.old.unread + 1)) }
    ensures ordered { OnOk result (Rises own_key counted.new.keys) }
{
    match key_of(alloc, given)? {
        Some(key) => put_by_key(key, &mut counted.keys)?,
        None => counted.unread += 1,
    }
    Ok(())
}

impl Counted {
    fn is_over(&self) -> bool
        ensures { result ≡ nat_lt 500 (length self.now.keys + self.now.unread) }
    {
        self.keys.len().saturating_add(self.unread) > MOST_ATTRIBUTES
    }
}

/// Whether an add has too many attributes. One that its name or its list has twice counts once, and each
/// whose name can't be read counts. In time linear in the list, but for the logarithm of the greatest
/// number.
pub(crate) fn has_too_many(alloc: Global, rdn: &Rdn, given: &[RawAttr]) -> Result<bool, NoMemory>
    ensures { IfOk result (λ over. over ≡ nat_lt 500 (attribute_count rdn.now given.now)) }
{
    let keys = rdn_keys(alloc, rdn)?;
    let mut counted = Counted { keys, unread: 0 };
    for one in given {
        if counted.is_over() {
            return Ok(true);
        }
        count(alloc, &mut counted, one)?;
    }
    Ok(counted.is_over())
}
