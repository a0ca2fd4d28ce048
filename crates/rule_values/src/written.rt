//! What is written of the modifications.

ghost use Rattle.std.specs.Prelude.{◌≡◌, IfOk, OnOk};
ghost use Rattle.std.specs.List.{list_any};
ghost use Rattle.repl_data.specs.Ordered.{Rises};
ghost use Rattle.rule_values.specs.Having.{attr_name, held};
ghost use Rattle.rule_values.specs.Written.{is_modified, replaced, write_before, written};

use crate::held::copy_held;
use crate::table::Table;
use repl_data::{AttrKey, Mod, ModKind, ModList, NoMemory, Shown, is_single, same_bytes};
use std::alloc::Global;

fn is_modified(attr: &AttrKey, mods: &[Mod]) -> bool
    ensures { result ≡ is_modified attr.now mods.now }
{
    mods.iter().any(|m| same_bytes(m.attr.name.as_slice(), attr.name.as_slice()))
}

/// The replace of the modified attribute by the values that it has at the end.
fn replaced(alloc: Global, own: &[Shown], touched: &Table, m: Mod) -> Result<Mod, NoMemory>
    requires { Rises attr_name touched.now }
    ensures { IfOk result (λ r. r ≡ replaced (held own.now touched.now) m.attr) }
{
    let Mod { attr, .. } = m;
    let vals = copy_held(alloc, own, touched, attr.name.as_slice())?;
    let kind = ModKind::Replace;
    Ok(Mod { kind, attr, vals })
}

/// One modification before what is written of the later ones.
fn write_before(
    alloc: Global,
    own: &[Shown],
    touched: &Table,
    m: Mod,
    later: &mut ModList,
) -> Result<(), NoMemory>
    requires { Rises attr_name touched.now }
    ensures { OnOk result (later.new ≡ write_before (held own.now touched.now) m later.old) }
{
    if !is_single(&m.attr) {
        later.insert(0, m)?;
        return Ok(());
    }
    if is_modified(&m.attr, later.as_slice()) {
        return Ok(());
    }
    later.insert(0, replaced(alloc, own, touched, m)?)?;
    Ok(())
}

/// What is written: the modifications in their order, but of a single-valued type one replace in the place of its
/// last one.
pub(crate) fn written(
    alloc: Global,
    own: &[Shown],
    touched: &Table,
    mods: ModList,
) -> Result<ModList, NoMemory>
    requires { Rises attr_name touched.now }
    ensures { IfOk result (λ body. body ≡ written (held own.now touched.now) mods) }
{
    let mut left = mods.into_vec();
    let mut body = ModList::new(alloc);
    while let Some(m) = left.pop() {
        write_before(alloc, own, touched, m, &mut body)?;
    }
    Ok(body)
}
