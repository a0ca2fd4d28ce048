//! Copies of what a view keeps.

ghost use Rattle.std.specs.Prelude.{◌≡◌, ◌++◌, ◌∷◌, [], IfOk, OnOk, Bool, if◌then◌else◌};
ghost use Rattle.std.specs.Option.{option_to_list, option_copied};

use repl_data::{AttrKey, Bytes, Change, Items, NoMemory, Rdn, ShownEntry, Val};
use std::alloc::AllocError;

/// What can be copied whole.
pub(crate) trait Copied {
    /// An equal one.
    fn copied(&self) -> Result<Self, NoMemory>
        ensures { IfOk result (λ copy. copy ≡ self.now) };
}

impl Copied for Bytes {
    fn copied(&self) -> Result<Bytes, NoMemory> {
        Ok(self.clone()?)
    }
}

impl Copied for AttrKey {
    fn copied(&self) -> Result<AttrKey, NoMemory> {
        Ok(self.clone()?)
    }
}

impl Copied for Val {
    fn copied(&self) -> Result<Val, NoMemory> {
        Ok(self.clone()?)
    }
}

impl Copied for Rdn {
    fn copied(&self) -> Result<Rdn, NoMemory> {
        Ok(self.clone()?)
    }
}

impl Copied for ShownEntry {
    fn copied(&self) -> Result<ShownEntry, NoMemory> {
        Ok(self.clone()?)
    }
}

fn copied_change(change: &Change) -> Result<Change, AllocError>
    ensures { IfOk result (λ copy. copy ≡ change.now) }
{
    change.clone()
}

impl Copied for Change {
    fn copied(&self) -> Result<Change, NoMemory> {
        Ok(copied_change(self)?)
    }
}

/// Appends the value, if there is one.
pub(crate) fn push_some<T: Drop>(value: Option<T>, items: &mut Items<T>) -> Result<(), NoMemory>
    ensures { OnOk result (items.new ≡ items.old ++ option_to_list value) }
{
    match value {
        Some(value) => items.push(value)?,
        None => {}
    }
    Ok(())
}

/// Appends a copy of the value, if there is one.
pub(crate) fn push_copy<T: Copied + Drop>(
    value: Option<&T>,
    items: &mut Items<T>,
) -> Result<(), NoMemory>
    ensures { OnOk result (items.new ≡ items.old ++ option_to_list (option_copied value.entry)) }
{
    match value {
        Some(value) => items.push(value.copied()?)?,
        None => {}
    }
    Ok(())
}

/// Appends a copy of the value where it is wanted.
pub(crate) fn push_if<T: Copied + Drop>(
    wanted: bool,
    value: &T,
    items: &mut Items<T>,
) -> Result<(), NoMemory>
    ensures { OnOk result (items.new ≡ items.old ++ (if wanted then value.now ∷ [] else [])) }
{
    if wanted {
        items.push(value.copied()?)?;
    }
    Ok(())
}
