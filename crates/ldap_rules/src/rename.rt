//! The cases of a modify DN.

ghost use Rattle.std.specs.Prelude.{◌≡◌, ◌&&◌, not, ◌++◌, [], ◌∷◌, drop, filter, unwrap_or, IfOk, OnOk, if◌then◌else◌};
ghost use Rattle.std.specs.List.{list_any};
ghost use Rattle.std.specs.Option.{option_copied};
ghost use Rattle.repl_data.specs.declared.change.Ava.{Ava};
ghost use Rattle.repl_data.specs.Order.{bytes_eq, uid_eq};
ghost use Rattle.repl_data.specs.Facts.{is_in_name};
ghost use Rattle.repl_data.specs.View.{name_of};
ghost use Rattle.repl_data.specs.Lent.{own_of};
ghost use Rattle.dn_text.specs.Reading.{dn_in};
ghost use Rattle.ldap_rules.specs.Case.{Gives};
ghost use Rattle.dn_text.specs.Names.{same_keys, rdns_above};
ghost use Rattle.ldap_rules.specs.Rename.{only, read_new, is_above, stays_below, is_other, is_taken, parts, dropped_parts, is_dropped, stays_beside, has_another, is_second, own_values, rename_made, rename_verdict};

use crate::case::refuse_if;
use crate::delete::is_suffix;
use crate::derived::has_derived_part;
use crate::writes::{all_writes, light_change};
use attr_keys::is_single;
use dn_text::{Dn, DnFault, JudgeFault, RdnList, count_above, entry_at, object, read_dn, refused};
use ldap_types::{Code, Control, Identity};
use repl_data::{Ava, AvaList, Body, Bytes, NoMemory, Rdn, Shown, Uid, Val, View, same_bytes};
use std::alloc::Global;

/// The one relative name of a name.
fn only(alloc: Global, rdns: RdnList) -> Result<Rdn, JudgeFault>
    ensures { Gives result (only rdns) }
{
    let mut rdns = rdns;
    match rdns.len() {
        1 => Ok(rdns.remove(0)),
        _ => Err(refused(alloc, Code::INVALID_DN_SYNTAX)),
    }
}

/// The new relative name.
fn read_new(alloc: Global, text: &[u8]) -> Result<Rdn, JudgeFault>
    ensures { Gives result (read_new text.now) }
{
    let name = object(alloc, text)?;
    only(alloc, name.rdns)
}

/// The relative names above the entry's own.
fn above(rdns: &[Rdn]) -> &[Rdn]
    ensures { result.now ≡ drop 1 rdns.now }
{
    match rdns {
        [] => rdns,
        [_, above @ ..] => above,
    }
}

/// The names are the same, by the keys of their relative names.
fn same_names(a: &[Rdn], b: &[Rdn]) -> bool
    ensures { result ≡ same_keys a.now b.now }
{
    a.cmp(b).is_eq()
}

/// Whether a name is these relative names above the suffix, by their keys.
fn is_above_suffix(name: &Dn, suffix: &Dn, above: &[Rdn]) -> bool
    ensures { result ≡ is_above (rdns_above (Ok suffix.now) name.now) above.now }
{
    match count_above(name, suffix) {
        Some(count) => same_names(&name.rdns.as_slice()[..count], above),
        None => false,
    }
}

/// Whether a name is these relative names above the suffix of the view.
fn is_above<V: View>(alloc: Global, view: &V, name: &Dn, above: &[Rdn]) -> Result<bool, NoMemory>
    ensures { IfOk result (λ same. same ≡ is_above (rdns_above (dn_in (V.view view.now).suffix) name.now) above.now) }
{
    match read_dn(alloc, view.suffix_name()) {
        Ok(suffix) => Ok(is_above_suffix(name, &suffix, above)),
        Err(DnFault::NoMemory) => Err(NoMemory),
        Err(DnFault::BadDn { .. }) => Ok(false),
    }
}

/// The new superior has to be the parent.
#[tactic(auto, unfolding(crate::specs::Rename::stays_below))]
fn stays_below<V: View>(
    alloc: Global,
    view: &V,
    above: &[Rdn],
    new_superior: Option<&[u8]>,
) -> Result<(), JudgeFault>
    ensures { Gives result (stays_below (V.view view.now) above.now (option_copied new_superior.entry)) }
{
    match new_superior {
        None => Ok(()),
        Some(text) => {
            let superior = object(alloc, text)?;
            let same = is_above(alloc, view, &superior, above)?;
            refuse_if(alloc, !same, Code::UNWILLING_TO_PERFORM)
        }
    }
}

fn is_other(id: Uid, shown: Option<Uid>) -> bool
    ensures { result ≡ is_other id shown }
{
    match shown {
        None => false,
        Some(child) => !child.csn.cmp(&id.csn).is_eq(),
    }
}

/// Another entry below the same parent shows the relative name.
fn is_taken<V: View>(view: &V, id: Uid, new: &Rdn) -> bool
    ensures { result ≡ is_taken (V.view view.now) id new.now }
{
    match view.parent(id) {
        None => false,
        Some(parent) => is_other(id, view.child(parent, new)),
    }
}

/// The parts of an entry's own name.
fn parts<V: View>(view: &V, id: Uid) -> &[Ava]
    ensures { result.now ≡ parts (name_of (V.view view.now) id) }
{
    match view.name(id) {
        None => &[],
        Some(name) => name.avas.as_slice(),
    }
}

fn is_part(ava: &Ava, name: &Bytes, key: &Bytes) -> bool
    ensures { result ≡ (bytes_eq ava.now.attr.name name.now && bytes_eq ava.now.val.key key.now) }
{
    same_bytes(ava.attr.name.as_slice(), name.as_slice())
        && same_bytes(ava.val.key.as_slice(), key.as_slice())
}

/// Whether one of the parts has this value of this attribute.
fn has_part(avas: &[Ava], name: &Bytes, key: &Bytes) -> bool
    ensures { result ≡ is_dropped avas.now name.now key.now }
{
    avas.iter().any(|ava| is_part(ava, name, key))
}

fn copy(ava: &Ava) -> Result<Ava, NoMemory>
    ensures { IfOk result (λ copy. copy ≡ ava.now) }
{
    let copy = ava.clone()?;
    Ok(copy)
}

/// Puts a part behind others, if the new name lacks it.
fn put_lacking(new: &Rdn, ava: &Ava, lacking: &mut AvaList) -> Result<(), NoMemory>
    ensures { OnOk result (lacking.new ≡ lacking.old ++ filter (λ (a : Ava). not (is_in_name new.now a.attr a.val.key)) (ava.now ∷ [])) }
{
    if !has_part(new.avas.as_slice(), &ava.attr.name, &ava.val.key) {
        lacking.push(copy(ava)?)?;
    }
    Ok(())
}

/// The parts that the new name lacks.
fn lacking(alloc: Global, new: &Rdn, parts: &[Ava]) -> Result<AvaList, NoMemory>
    ensures { IfOk result (λ lacking. lacking ≡ filter (λ (a : Ava). not (is_in_name new.now a.attr a.val.key)) parts.now) }
{
    let mut lacking = AvaList::new(alloc);
    for ava in parts {
        put_lacking(new, ava, &mut lacking)?;
    }
    Ok(lacking)
}

/// The values that go.
fn dropped_parts<V: View>(
    alloc: Global,
    view: &V,
    id: Uid,
    delete_old: bool,
    new: &Rdn,
) -> Result<AvaList, NoMemory>
    ensures { IfOk result (λ dropped. dropped ≡ dropped_parts (V.view view.now) id delete_old new.now) }
{
    if delete_old {
        lacking(alloc, new, parts(view, id))
    } else {
        Ok(AvaList::new(alloc))
    }
}

fn stays_beside(dropped: &[Ava], ava: &Ava, val: &Val) -> bool
    ensures { result ≡ stays_beside dropped.now ava.now val.now }
{
    !same_bytes(val.key.as_slice(), ava.val.key.as_slice())
        && !has_part(dropped, &ava.attr.name, &val.key)
}

fn any_stays_beside(dropped: &[Ava], ava: &Ava, vals: &[Val]) -> bool
    ensures { result ≡ list_any (stays_beside dropped.now ava.now) vals.now }
{
    vals.iter().any(|val| stays_beside(dropped, ava, val))
}

fn has_another(dropped: &[Ava], ava: &Ava, shown: &Shown) -> bool
    ensures { result ≡ has_another dropped.now ava.now shown.now }
{
    same_bytes(shown.attr.name.as_slice(), ava.attr.name.as_slice())
        && any_stays_beside(dropped, ava, shown.vals.as_slice())
}

fn any_has_another(dropped: &[Ava], ava: &Ava, own: &[Shown]) -> bool
    ensures { result ≡ list_any (has_another dropped.now ava.now) own.now }
{
    own.iter().any(|shown| has_another(dropped, ava, shown))
}

fn is_second(own: &[Shown], dropped: &[Ava], ava: &Ava) -> bool
    ensures { result ≡ is_second own.now dropped.now ava.now }
{
    is_single(&ava.attr) && any_has_another(dropped, ava, own)
}

/// Whether a single-valued type would have more than one value, with those of the new name.
fn any_is_second(own: &[Shown], dropped: &[Ava], avas: &[Ava]) -> bool
    ensures { result ≡ list_any (is_second own.now dropped.now) avas.now }
{
    avas.iter().any(|ava| is_second(own, dropped, ava))
}

pub(crate) fn own_values<V: View>(view: &V, id: Uid) -> &[Shown]
    ensures { result.now ≡ own_values (V.view view.now) id }
{
    match view.own(id) {
        None => &[],
        Some(own) => own,
    }
}

/// What a modify DN of a name makes, by the relative names above the suffix.
#[tactic(auto, unfolding(crate::specs::Rename::rename_made))]
fn rename_made<V: View>(
    alloc: Global,
    view: &V,
    new_rdn: &[u8],
    delete_old: bool,
    new_superior: Option<&[u8]>,
    rdns: &[Rdn],
) -> Result<(Uid, Body), JudgeFault>
    ensures { Gives result (rename_made (V.view view.now) new_rdn.now delete_old (option_copied new_superior.entry) rdns.now) }
{
    refuse_if(alloc, is_suffix(rdns), Code::UNWILLING_TO_PERFORM)?;
    let id = entry_at(alloc, view, rdns)?;
    let new = read_new(alloc, new_rdn)?;
    stays_below(alloc, view, above(rdns), new_superior)?;
    refuse_if(
        alloc,
        has_derived_part(new.avas.as_slice()),
        Code::NAMING_VIOLATION,
    )?;
    refuse_if(alloc, is_taken(view, id, &new), Code::ENTRY_ALREADY_EXISTS)?;
    let dropped = dropped_parts(alloc, view, id, delete_old, &new)?;
    refuse_if(
        alloc,
        any_is_second(
            own_values(view, id),
            dropped.as_slice(),
            new.avas.as_slice(),
        ),
        Code::CONSTRAINT_VIOLATION,
    )?;
    Ok((id, Body::Ren { rdn: new, dropped }))
}

/// What a modify DN makes (RFC 4511, section 4.9): the entry that gets another relative name, and the body.
pub(crate) fn judge_rename<V: View>(
    alloc: Global,
    view: &V,
    controls: &[Control],
    bound: Identity,
    object: &[u8],
    new_rdn: &[u8],
    delete_old: bool,
    new_superior: Option<&[u8]>,
) -> Result<(Uid, Body), JudgeFault>
    ensures { Gives result (rename_verdict (V.view view.now) controls.now bound object.now new_rdn.now delete_old (option_copied new_superior.entry)) }
{
    let rdns = all_writes(alloc, view.suffix_name(), controls, bound, object)?;
    let change = rename_made(
        alloc,
        view,
        new_rdn,
        delete_old,
        new_superior,
        rdns.as_slice(),
    )?;
    light_change(alloc, change)
}
