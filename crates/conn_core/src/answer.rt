//! Answers: the entries that a search found, and a result.

ghost use Rattle.std.specs.Prelude.{◌≡◌, map, IfOk};
ghost use Rattle.repl_data.specs.declared.change.Val.{Val};
ghost use Rattle.conn_core.specs.Serving.{only, raw_attr, entry_reply};

use ldap_types::{Bytes, LdapResult, NoMemory, RawAttr, RawAttrList, ReplyOp};
use repl_data::{BytesList, Shown, ShownEntry, ShownEntryList, ShownList, Val, ValList};
use search_core::Found;
use std::alloc::Global;

/// An answer without entries.
pub(crate) fn only(alloc: Global, told: LdapResult) -> Found
    ensures { result ≡ only told }
{
    Found {
        entries: ShownEntryList::new(alloc),
        result: told,
    }
}

fn spelled(val: Val) -> Bytes
    ensures { result ≡ val.spelled }
{
    val.spelled
}

/// The values as they are spelled, which move.
#[tactic(auto, using(repl_data::proofs::Loops::map_append))]
fn raw_vals(alloc: Global, vals: ValList) -> Result<BytesList, NoMemory>
    ensures { IfOk result (λ raws. raws ≡ map (λ (v : Val). v.spelled) vals) }
{
    let mut raws = BytesList::new(alloc);
    for val in vals.into_vec() {
        raws.push(spelled(val))?;
    }
    Ok(raws)
}

fn raw_attr(alloc: Global, shown: Shown) -> Result<RawAttr, NoMemory>
    ensures { IfOk result (λ raw. raw ≡ raw_attr shown) }
{
    let Shown { attr, vals, .. } = shown;
    let vals = raw_vals(alloc, vals)?;
    Ok(RawAttr {
        name: attr.name,
        vals,
    })
}

#[tactic(auto, using(repl_data::proofs::Loops::map_append))]
fn raw_attrs(alloc: Global, attrs: ShownList) -> Result<RawAttrList, NoMemory>
    ensures { IfOk result (λ raws. raws ≡ map raw_attr attrs) }
{
    let mut raws = RawAttrList::new(alloc);
    for shown in attrs.into_vec() {
        raws.push(raw_attr(alloc, shown)?)?;
    }
    Ok(raws)
}

/// The reply that has an entry (RFC 4511, section 4.5.2). Its names and values move.
pub(crate) fn entry_reply(alloc: Global, entry: ShownEntry) -> Result<ReplyOp, NoMemory>
    ensures { IfOk result (λ op. op ≡ entry_reply entry) }
{
    let ShownEntry { id: _id, dn, attrs } = entry;
    let attrs = raw_attrs(alloc, attrs)?;
    Ok(ReplyOp::Entry { name: dn, attrs })
}
