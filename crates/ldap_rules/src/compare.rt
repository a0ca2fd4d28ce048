//! The cases of a compare.

ghost use Rattle.std.specs.Prelude.{◌≡◌, ◌&&◌, List, map, find, option_map, IfOk, Some, None, if◌then◌else◌};
ghost use Rattle.std.specs.List.{list_any};
ghost use Rattle.std.specs.Option.{option_copied};
ghost use Rattle.repl_data.specs.declared.change.Shown.{Shown};
ghost use Rattle.repl_data.specs.declared.change.Val.{Val};
ghost use Rattle.repl_data.specs.Order.{bytes_eq};
ghost use Rattle.dn_text.specs.Reading.{dn_in};
ghost use Rattle.ldap_rules.specs.Case.{Gives};
ghost use Rattle.dn_text.specs.Names.{rdns_above, within};
ghost use Rattle.ldap_rules.specs.Compare.{keys_in, shown_at, there, told, compared, is_critical, compare_verdict};

use crate::case::refuse_if;
use crate::values::{read_name, read_value};
use dn_text::{JudgeFault, entry_at, object, rdns_above, refused, result_of};
use ldap_types::{Code, Control, LdapResult};
use repl_data::{AttrKey, Bytes, NoMemory, Shown, ShownList, Uid, Val, View, same_bytes};
use std::alloc::Global;

fn is_of(shown: &Shown, attr: &AttrKey) -> bool
    ensures { result ≡ bytes_eq shown.now.attr.name attr.now.name }
{
    same_bytes(shown.attr.name.as_slice(), attr.name.as_slice())
}

/// The attribute, if it is shown.
fn shown_of<'a>(shown: &'a [Shown], attr: &AttrKey) -> Option<&'a Shown>
    ensures { option_copied result ≡ find (λ (s : Shown). bytes_eq s.attr.name attr.now.name) shown.now }
{
    shown.iter().find(|one| is_of(one, attr))
}

fn is_any_key(vals: &[Val], key: &Bytes) -> bool
    ensures { result ≡ list_any (λ (v : Val). bytes_eq key.now v.key) vals.now }
{
    vals.iter()
        .any(|val| same_bytes(key.as_slice(), val.key.as_slice()))
}

fn has_key(vals: &[Val], key: &Bytes) -> bool
    ensures { result ≡ list_any (bytes_eq key.now) (map (λ (v : Val). v.key) vals.now) }
{
    is_any_key(vals, key)
}

fn told(alloc: Global, vals: &[Val], key: &Bytes) -> LdapResult
    ensures { result ≡ told key.now (map (λ (v : Val). v.key) vals.now) }
{
    if has_key(vals, key) {
        result_of(alloc, Code::COMPARE_TRUE)
    } else {
        result_of(alloc, Code::COMPARE_FALSE)
    }
}

/// What a compare with an entry that shows these attributes is answered: `compareTrue` where it has the value,
/// `compareFalse` where it has others, and else a refusal (RFC 4511, section 4.10).
#[tactic(auto, unfolding(crate::specs::Compare::compared))]
pub fn compared(
    alloc: Global,
    shown: &[Shown],
    name: &[u8],
    value: &[u8],
) -> Result<LdapResult, JudgeFault>
    ensures { Gives result (compared (keys_in shown.now) name.now value.now) }
{
    let attr = read_name(alloc, name)?;
    match shown_of(shown, &attr) {
        None => Err(refused(alloc, Code::NO_SUCH_ATTRIBUTE)),
        Some(one) => {
            let val = read_value(alloc, &attr, value)?;
            Ok(told(alloc, one.vals.as_slice(), &val.key))
        }
    }
}

fn has_critical(controls: &[Control]) -> bool
    ensures { result ≡ list_any is_critical controls.now }
{
    controls.iter().any(|control| control.critical)
}

/// What an entry shows.
fn shown_at<V: View>(alloc: Global, view: &V, id: Uid) -> Result<ShownList, NoMemory>
    ensures { IfOk result (λ shown. shown ≡ shown_at (V.view view.now) id) }
{
    match view.entry(alloc, id)? {
        Some(entry) => Ok(entry.attrs),
        None => Ok(ShownList::new(alloc)),
    }
}

/// The answer to a compare (RFC 4511, section 4.10). Only what is refused is a fault.
#[tactic(auto, unfolding(crate::specs::Compare::compare_verdict))]
pub(crate) fn judge_compare<V: View>(
    alloc: Global,
    view: &V,
    controls: &[Control],
    object_text: &[u8],
    name: &[u8],
    value: &[u8],
) -> Result<LdapResult, JudgeFault>
    ensures { Gives result (compare_verdict (V.view view.now) controls.now object_text.now name.now value.now) }
{
    refuse_if(
        alloc,
        has_critical(controls),
        Code::UNAVAILABLE_CRITICAL_EXTENSION,
    )?;
    let dn = object(alloc, object_text)?;
    let rdns = rdns_above(alloc, dn, view.suffix_name())?;
    let id = entry_at(alloc, view, rdns.as_slice())?;
    let shown = shown_at(alloc, view, id)?;
    compared(alloc, shown.as_slice(), name, value)
}
