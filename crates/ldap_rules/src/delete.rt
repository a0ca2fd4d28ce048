//! The cases of a delete.

ghost use Rattle.std.specs.Prelude.{◌≡◌, not, IfOk};
ghost use Rattle.repl_data.specs.Check.{is_empty};
ghost use Rattle.repl_data.specs.View.{children_of};
ghost use Rattle.ldap_rules.specs.Case.{Gives};
ghost use Rattle.ldap_rules.specs.Delete.{delete_made, delete_verdict};

use crate::case::refuse_if;
use crate::writes::{all_writes, light_change};
use dn_text::{JudgeFault, entry_at};
use ldap_types::{Code, Control, Identity};
use repl_data::{Body, NoMemory, Rdn, Uid, View};
use std::alloc::Global;

/// Whether a name is the suffix, by its relative names above the suffix.
pub(crate) fn is_suffix(rdns: &[Rdn]) -> bool
    ensures { result ≡ is_empty rdns.now }
{
    match rdns {
        [] => true,
        [_, ..] => false,
    }
}

fn is_some_id(ids: &[Uid]) -> bool
    ensures { result ≡ not (is_empty ids.now) }
{
    match ids {
        [] => false,
        [_, ..] => true,
    }
}

/// Whether an entry has a present child.
fn has_child<V: View>(alloc: Global, view: &V, id: Uid) -> Result<bool, NoMemory>
    ensures { IfOk result (λ has. has ≡ not (is_empty (children_of (V.view view.now) id))) }
{
    let children = view.children(alloc, id)?;
    Ok(is_some_id(children.as_slice()))
}

/// What a delete of a name makes, by the relative names above the suffix.
#[tactic(auto, unfolding(crate::specs::Delete::delete_made))]
fn delete_made<V: View>(alloc: Global, view: &V, rdns: &[Rdn]) -> Result<(Uid, Body), JudgeFault>
    ensures { Gives result (delete_made (V.view view.now) rdns.now) }
{
    refuse_if(alloc, is_suffix(rdns), Code::UNWILLING_TO_PERFORM)?;
    let id = entry_at(alloc, view, rdns)?;
    let parent = has_child(alloc, view, id)?;
    refuse_if(alloc, parent, Code::NOT_ALLOWED_ON_NON_LEAF)?;
    Ok((id, Body::Del))
}

/// What a delete makes (RFC 4511, section 4.8): the entry that goes, and the body.
pub(crate) fn judge_delete<V: View>(
    alloc: Global,
    view: &V,
    controls: &[Control],
    bound: Identity,
    object: &[u8],
) -> Result<(Uid, Body), JudgeFault>
    ensures { Gives result (delete_verdict (V.view view.now) controls.now bound object.now) }
{
    let rdns = all_writes(alloc, view.suffix_name(), controls, bound, object)?;
    let change = delete_made(alloc, view, rdns.as_slice())?;
    light_change(alloc, change)
}
