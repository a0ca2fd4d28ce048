//! Which attributes of an entry are answered.

ghost use Rattle.std.specs.Prelude.{◌≡◌, ◌++◌, ◌||◌, codes, IfOk, OnOk};
ghost use Rattle.std.specs.Option.{option_to_list};
ghost use Rattle.filter_truth.specs.Truth.{attr_of};
ghost use Rattle.search_core.specs.Selection.{has_name, asks_nothing, is_empty, keys_of, with_values};
ghost use Rattle.search_core.specs.Selected.{Chooses, is_chosen, chosen_attrs, chosen};

use attr_keys::{KeyFault, attr_key};
use repl_data::{Bytes, BytesList, Items, NoMemory, Shown, ShownEntry, ShownList, or, same_bytes};
use std::alloc::Global;

/// The attributes that a search asks for, read once (RFC 4511, section 4.5.1.8).
#[derive(Debug, Drop)]
pub(crate) struct Selection {
    /// It asks for none.
    nothing: bool,
    /// All user attributes.
    users: bool,
    /// All operational attributes.
    operational: bool,
    /// The keys of those that are named.
    keys: BytesList,
    /// Names of attributes alone, and no values.
    types_only: bool,
}

fn has_name(name: &[u8], names: &[Bytes]) -> bool
    ensures { result ≡ has_name name.now names.now }
{
    names.iter().any(|one| same_bytes(one.as_slice(), name))
}

fn asks_nothing(names: &[Bytes]) -> bool
    ensures { result ≡ asks_nothing names.now }
{
    match names {
        [name] => same_bytes(name.as_slice(), b"1.1".as_slice()),
        _ => false,
    }
}

fn asks_users(names: &[Bytes]) -> bool
    ensures { result ≡ (is_empty names.now || has_name (codes "*") names.now) }
{
    match names {
        [] => true,
        _ => has_name(b"*".as_slice(), names),
    }
}

/// Appends the key of a name, if it can be read.
fn push_key(alloc: Global, name: &[u8], keys: &mut BytesList) -> Result<(), NoMemory>
    ensures { OnOk result (keys.new ≡ keys.old ++ option_to_list (attr_of name.now)) }
{
    match attr_key(alloc, name) {
        Ok(attr) => keys.push(attr.name),
        Err(KeyFault::BadName { .. }) => Ok(()),
        Err(_) => Err(NoMemory),
    }
}

#[tactic(auto, using(repl_data::proofs::Loops::flat_map_more))]
fn keys_of(alloc: Global, names: &[Bytes]) -> Result<BytesList, NoMemory>
    ensures { IfOk result (λ keys. keys ≡ keys_of names.now) }
{
    let mut keys = BytesList::new(alloc);
    for name in names {
        push_key(alloc, name.as_slice(), &mut keys)?;
    }
    Ok(keys)
}

impl Selection {
    /// The selection that these names make. Takes time and memory in proportion to them.
    pub(crate) fn new(
        alloc: Global,
        names: &[Bytes],
        types_only: bool,
    ) -> Result<Selection, NoMemory>
        ensures { IfOk result (λ s. Chooses s names.now types_only) }
    {
        let keys = keys_of(alloc, names)?;
        Ok(Selection {
            nothing: asks_nothing(names),
            users: asks_users(names),
            operational: has_name(b"+".as_slice(), names),
            keys,
            types_only,
        })
    }

    fn is_chosen(&self, shown: &Shown) -> bool
        ensures { result ≡ is_chosen self.now shown.now }
    {
        let all = if shown.operational {
            self.operational
        } else {
            self.users
        };
        or(
            all,
            has_name(shown.attr.name.as_slice(), self.keys.as_slice()),
        )
    }

    /// The attribute as it is answered.
    fn shown(&self, alloc: Global, shown: Shown) -> Shown
        ensures { result ≡ with_values self.now.types_only shown }
    {
        if self.types_only {
            Shown {
                vals: Items::new(alloc),
                ..shown
            }
        } else {
            shown
        }
    }

    fn attrs(&self, alloc: Global, attrs: ShownList) -> Result<ShownList, NoMemory>
        ensures { IfOk result (λ all. all ≡ chosen_attrs self.now attrs) }
    {
        let all = attrs
            .into_vec()
            .into_iter()
            .filter(|shown| self.is_chosen(shown))
            .map(|shown| self.shown(alloc, shown))
            .collect(alloc)?;
        Ok(ShownList::from_vec(all))
    }

    /// The entry as it is answered. Takes memory for a list of its attributes, and none for its values.
    pub(crate) fn entry(&self, alloc: Global, entry: ShownEntry) -> Result<ShownEntry, NoMemory>
        ensures { IfOk result (λ e. e ≡ chosen self.now entry) }
    {
        let ShownEntry { id, dn, attrs } = entry;
        if self.nothing {
            return Ok(ShownEntry {
                id,
                dn,
                attrs: ShownList::new(alloc),
            });
        }
        let attrs = self.attrs(alloc, attrs)?;
        Ok(ShownEntry { id, dn, attrs })
    }
}
