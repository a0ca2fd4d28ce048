//! The modifications of a modify, each on the entry as the earlier ones left it.

ghost use Rattle.std.specs.Prelude.{◌≡◌, fold, length, nat_lt, IfOk, OnOk};
ghost use Rattle.repl_data.specs.declared.change.Mod.{Mod};
ghost use Rattle.repl_data.specs.Check.{is_empty};
ghost use Rattle.repl_data.specs.Ordered.{Rises};
ghost use Rattle.rule_values.specs.Having.{attr_name, held, step};
ghost use Rattle.rule_values.specs.Refusing.{Gives};
ghost use Rattle.rule_values.specs.Modify.{after, carried, modifications};

use crate::case::refuse_if;
use crate::ended::ended;
use crate::fault::{Refusal, ValueFault};
use crate::read_mod::read_mod;
use crate::step::carry;
use crate::table::Table;
use crate::written::written;
use ldap_types::RawMod;
use repl_data::{Mod, ModList, Rdn, Shown};
use std::alloc::Global;

/// The greatest number of modifications.
const MOST_MODIFICATIONS: usize = 1000;

/// Reads one modification and carries it out.
#[tactic(auto, unfolding(crate::specs::Having::step))]
fn step(
    alloc: Global,
    own: &[Shown],
    touched: &mut Table,
    given: &RawMod,
) -> Result<Mod, ValueFault>
    requires { Rises attr_name touched.old }
    ensures gives { Gives result (step (held own.now touched.old) given.now) }
    ensures after { IfOk result (λ m. held own.now touched.new ≡ after (held own.now touched.old) m) }
    ensures ordered { OnOk result (Rises attr_name touched.new) }
{
    let m = read_mod(alloc, given)?;
    carry(alloc, own, touched, &m)?;
    Ok(m)
}

/// Carries out the modifications, one after the other.
fn carried(
    alloc: Global,
    own: &[Shown],
    touched: &mut Table,
    given: &[RawMod],
) -> Result<ModList, ValueFault>
    requires { Rises attr_name touched.old }
    ensures gives { Gives result (carried (held own.now touched.old) given.now) }
    ensures after { IfOk result (λ mods. held own.now touched.new ≡ fold after (held own.now touched.old) mods) }
    ensures ordered { OnOk result (Rises attr_name touched.new) }
{
    let mut mods = ModList::new(alloc);
    for one in given {
        let m = step(alloc, own, touched, one)?;
        mods.push(m)?;
    }
    Ok(mods)
}

fn is_empty(given: &[RawMod]) -> bool
    ensures { result ≡ is_empty given.now }
{
    match given.first() {
        Some(_) => false,
        None => true,
    }
}

fn has_too_many(given: &[RawMod]) -> bool
    ensures { result ≡ nat_lt 1000 (length given.now) }
{
    given.len() > MOST_MODIFICATIONS
}

/// What is written of the modifications of an entry (RFC 4511, section 4.6), which has the name and shows the values
/// `own`: the modifications in their order, each with its values in order of key; but all of one single-valued type
/// become one replace, by the value that the entry has at the end or by none, in the place of the last of them.
///
/// The first case that fits refuses: no modification; more than 1,000; then, modification by modification on what
/// the earlier ones left, one that can't be read (its kind, its name, a derived attribute, an add without values;
/// value by value one that can't be read, is derived or stands twice) and one that does not fit (a value that is
/// added and is held, a value or an attribute that is deleted and is not); and after all of them a value of the name
/// that is gone, a single-valued type with two values, no class.
///
/// An attribute that is modified is copied once, and so are the naming attributes and the classes: that takes the
/// size of these, times its logarithm where values are put or taken. The values of each modification are sorted once.
/// n values of all modifications then cost n times the logarithm of what is there, in whatever order they come and
/// however they are spread over the modifications: 1,000 modifications of one value of an attribute with 100,000
/// values are 100,000 values copied into a tree and 1,000 steps in it. What is not named is not looked at, but for
/// one comparison of names for each attribute of the entry and each attribute that is modified.
#[tactic(auto, unfolding(crate::specs::Modify::modifications))]
pub fn modifications(
    alloc: Global,
    name: &Rdn,
    own: &[Shown],
    given: &[RawMod],
) -> Result<ModList, ValueFault>
    ensures { Gives result (modifications name.now own.now given.now) }
{
    refuse_if(is_empty(given), Refusal::NoModification)?;
    refuse_if(has_too_many(given), Refusal::TooManyModifications)?;
    let mut touched = Table::new(alloc);
    let mods = carried(alloc, own, &mut touched, given)?;
    ended(alloc, own, &touched, name, mods.as_slice())?;
    let body = written(alloc, own, &touched, mods)?;
    Ok(body)
}
