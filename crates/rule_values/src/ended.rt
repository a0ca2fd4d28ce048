//! What must stand when all modifications are carried out.

ghost use Rattle.std.specs.Prelude.{◌≡◌, not, IfOk};
ghost use Rattle.std.specs.List.{list_any, list_all};
ghost use Rattle.repl_data.specs.Ordered.{Rises};
ghost use Rattle.rule_values.specs.Having.{attr_name, held};
ghost use Rattle.rule_values.specs.Refusing.{Gives};
ghost use Rattle.rule_values.specs.Modify.{has_second, has_part, lacks_class, ended};

use crate::case::refuse_if;
use crate::fault::{Refusal, ValueFault};
use crate::headed::copy_key;
use crate::held::{count_held, is_held, is_without};
use crate::table::Table;
use repl_data::{Ava, Mod, NoMemory, Rdn, Shown, is_single};
use std::alloc::Global;

fn has_part(alloc: Global, own: &[Shown], touched: &Table, ava: &Ava) -> Result<bool, NoMemory>
    requires { Rises attr_name touched.now }
    ensures { IfOk result (λ has. has ≡ has_part (held own.now touched.now) ava.now) }
{
    let key = copy_key(&ava.val)?;
    is_held(alloc, own, touched, ava.attr.name.as_slice(), &key)
}

/// Whether the entry has the values of its name.
fn has_parts(alloc: Global, own: &[Shown], touched: &Table, avas: &[Ava]) -> Result<bool, NoMemory>
    requires { Rises attr_name touched.now }
    ensures { IfOk result (λ has. has ≡ list_all (has_part (held own.now touched.now)) avas.now) }
{
    for ava in avas {
        if !has_part(alloc, own, touched, ava)? {
            return Ok(false);
        }
    }
    Ok(true)
}

fn has_second(alloc: Global, own: &[Shown], touched: &Table, m: &Mod) -> Result<bool, NoMemory>
    requires { Rises attr_name touched.now }
    ensures { IfOk result (λ has. has ≡ has_second (held own.now touched.now) m.now) }
{
    if !is_single(&m.attr) {
        return Ok(false);
    }
    let count = count_held(alloc, own, touched, m.attr.name.as_slice())?;
    Ok(count > 1)
}

/// Whether a single-valued type that is modified has more than one value.
fn any_has_second(
    alloc: Global,
    own: &[Shown],
    touched: &Table,
    mods: &[Mod],
) -> Result<bool, NoMemory>
    requires { Rises attr_name touched.now }
    ensures { IfOk result (λ any. any ≡ list_any (has_second (held own.now touched.now)) mods.now) }
{
    for m in mods {
        if has_second(alloc, own, touched, m)? {
            return Ok(true);
        }
    }
    Ok(false)
}

/// Whether the entry lacks a value of its name.
fn lacks_part(alloc: Global, own: &[Shown], touched: &Table, name: &Rdn) -> Result<bool, NoMemory>
    requires { Rises attr_name touched.now }
    ensures { IfOk result (λ lacks. lacks ≡ not (list_all (has_part (held own.now touched.now)) name.now.avas)) }
{
    let has = has_parts(alloc, own, touched, name.avas.as_slice())?;
    Ok(!has)
}

/// Whether the entry has no class.
#[tactic(auto, unfolding(crate::specs::Modify::lacks_class))]
fn lacks_class(alloc: Global, own: &[Shown], touched: &Table) -> Result<bool, NoMemory>
    requires { Rises attr_name touched.now }
    ensures { IfOk result (λ lacks. lacks ≡ lacks_class (held own.now touched.now)) }
{
    let lacks = is_without(alloc, own, touched, b"objectclass".as_slice())?;
    Ok(lacks)
}

/// The cases after all modifications.
#[tactic(auto, unfolding(crate::specs::Modify::ended))]
pub(crate) fn ended(
    alloc: Global,
    own: &[Shown],
    touched: &Table,
    name: &Rdn,
    mods: &[Mod],
) -> Result<(), ValueFault>
    requires { Rises attr_name touched.now }
    ensures { Gives result (ended name.now (held own.now touched.now) mods.now) }
{
    let gone = lacks_part(alloc, own, touched, name)?;
    refuse_if(gone, Refusal::NameValueGone)?;
    let second = any_has_second(alloc, own, touched, mods)?;
    refuse_if(second, Refusal::SecondValue)?;
    let bare = lacks_class(alloc, own, touched)?;
    refuse_if(bare, Refusal::NoClass)?;
    Ok(())
}
