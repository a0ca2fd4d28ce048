//! A modification as it is read, whatever the entry has.

ghost use Rattle.std.specs.Prelude.{◌≡◌, ◌&&◌, IfOk};
ghost use Rattle.repl_data.specs.declared.change.Mod.{Mod};
ghost use Rattle.repl_data.specs.Check.{is_empty, needs_values};
ghost use Rattle.repl_data.specs.Ordered.{Rises};
ghost use Rattle.rule_values.specs.Having.{val_key};
ghost use Rattle.rule_values.specs.Refusing.{Gives};
ghost use Rattle.rule_values.specs.Modify.{kind_of, read_mod};

use crate::attributes::has_no_value;
use crate::case::refuse_if;
use crate::fault::{Refusal, ValueFault};
use crate::reading::read_name;
use crate::sorted::sorted_values;
use ldap_types::RawMod;
use repl_data::{Mod, ModKind, is_derived_attribute};
use std::alloc::Global;

/// The kind of a modification by its number.
fn kind_of(kind: i64) -> Result<ModKind, ValueFault>
    ensures { Gives result (kind_of kind) }
{
    if kind == 0 {
        return Ok(ModKind::Add);
    }
    if kind == 1 {
        return Ok(ModKind::Delete);
    }
    if kind == 2 {
        return Ok(ModKind::Replace);
    }
    Err(ValueFault::Refused(Refusal::UnknownKind))
}

fn needs_values(kind: ModKind) -> bool
    ensures { result ≡ needs_values kind }
{
    match kind {
        ModKind::Add => true,
        ModKind::Delete | ModKind::Replace => false,
    }
}

fn lacks_values(kind: ModKind, given: &RawMod) -> bool
    ensures { result ≡ (needs_values kind && is_empty given.now.vals) }
{
    let needs = needs_values(kind);
    needs && has_no_value(given.vals.as_slice())
}

/// A modification as it is read, with its values in order of key.
#[tactic(auto, unfolding(crate::specs::Modify::read_mod))]
pub(crate) fn read_mod(alloc: Global, given: &RawMod) -> Result<Mod, ValueFault>
    ensures gives { Gives result (read_mod given.now) }
    ensures rises { IfOk result (λ (m : Mod). Rises val_key m.vals) }
{
    let kind = kind_of(given.kind)?;
    let attr = read_name(alloc, given.name.as_slice())?;
    refuse_if(is_derived_attribute(&attr), Refusal::Derived)?;
    refuse_if(lacks_values(kind, given), Refusal::NoValue)?;
    let vals = sorted_values(alloc, &attr, given.vals.as_slice())?;
    Ok(Mod { kind, attr, vals })
}
