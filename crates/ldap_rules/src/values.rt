//! Attributes, values and modifications as the rules of values read them, with the code of each refusal.

ghost use Rattle.rule_values.specs.Listed.{read_name, read_value, entry_attributes};
ghost use Rattle.rule_values.specs.Modify.{modifications};
ghost use Rattle.ldap_rules.specs.Case.{Gives, coded};

use dn_text::{JudgeFault, refused};
use ldap_types::{RawAttr, RawMod};
use repl_data::{AttrKey, AttrList, ModList, Rdn, Shown, Val};
use rule_values::ValueFault;
use std::alloc::Global;

/// The attribute that the name names.
pub(crate) fn read_name(alloc: Global, name: &[u8]) -> Result<AttrKey, JudgeFault>
    ensures { Gives result (coded (read_name name.now)) }
{
    match rule_values::read_name(alloc, name) {
        Ok(attr) => Ok(attr),
        Err(ValueFault::NoMemory) => Err(JudgeFault::NoMemory),
        Err(ValueFault::Refused(why)) => Err(refused(alloc, why.code())),
    }
}

/// The value of the attribute that is spelled so.
pub(crate) fn read_value(alloc: Global, attr: &AttrKey, spelled: &[u8]) -> Result<Val, JudgeFault>
    ensures { Gives result (coded (read_value attr.now spelled.now)) }
{
    match rule_values::read_value(alloc, attr, spelled) {
        Ok(val) => Ok(val),
        Err(ValueFault::NoMemory) => Err(JudgeFault::NoMemory),
        Err(ValueFault::Refused(why)) => Err(refused(alloc, why.code())),
    }
}

/// The attributes of an add of an entry of this relative name.
pub(crate) fn entry_attributes(
    alloc: Global,
    rdn: &Rdn,
    given: &[RawAttr],
) -> Result<AttrList, JudgeFault>
    ensures { Gives result (coded (entry_attributes rdn.now given.now)) }
{
    match rule_values::entry_attributes(alloc, rdn, given) {
        Ok(attrs) => Ok(attrs),
        Err(ValueFault::NoMemory) => Err(JudgeFault::NoMemory),
        Err(ValueFault::Refused(why)) => Err(refused(alloc, why.code())),
    }
}

/// What is written of the modifications of an entry that has this relative name and shows these attributes.
pub(crate) fn modifications(
    alloc: Global,
    name: &Rdn,
    own: &[Shown],
    given: &[RawMod],
) -> Result<ModList, JudgeFault>
    ensures { Gives result (coded (modifications name.now own.now given.now)) }
{
    match rule_values::modifications(alloc, name, own, given) {
        Ok(mods) => Ok(mods),
        Err(ValueFault::NoMemory) => Err(JudgeFault::NoMemory),
        Err(ValueFault::Refused(why)) => Err(refused(alloc, why.code())),
    }
}
