//! Names and values as a client spells them.

ghost use Rattle.std.specs.Prelude.{◌≡◌};
ghost use Rattle.rule_values.specs.Refusing.{Gives};
ghost use Rattle.rule_values.specs.Listed.{read_name, read_value};

use crate::fault::{Refusal, ValueFault};
use attr_keys::{KeyFault, attr_key, value_key};
use repl_data::{AttrKey, Bytes, Val};
use std::alloc::Global;

/// The attribute that the name names.
pub fn read_name(alloc: Global, name: &[u8]) -> Result<AttrKey, ValueFault>
    ensures { Gives result (read_name name.now) }
{
    match attr_key(alloc, name) {
        Ok(attr) => Ok(attr),
        Err(KeyFault::BadName { .. }) => Err(ValueFault::Refused(Refusal::BadName)),
        Err(_) => Err(ValueFault::NoMemory),
    }
}

/// The value of the attribute that is spelled so.
pub fn read_value(alloc: Global, attr: &AttrKey, spelled: &[u8]) -> Result<Val, ValueFault>
    ensures { Gives result (read_value attr.now spelled.now) }
{
    match value_key(alloc, attr, spelled) {
        Ok(key) => {
            let spelled = Bytes::from_slice(alloc, spelled)?;
            Ok(Val { key, spelled })
        }
        Err(KeyFault::BadValue { .. }) => Err(ValueFault::Refused(Refusal::BadValue)),
        Err(_) => Err(ValueFault::NoMemory),
    }
}
