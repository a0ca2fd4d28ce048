//! What a reply reads as, and how it is written.

use crate::fault::tell_fault;
use crate::parts::{tell, tell_attributes, tell_optional};
use case_lines::{CaseFault, Fields, or_memory};
use ldap_replies::{ReadFault, read_reply, write_reply};
use ldap_types::{Bytes, LdapResult, Reply, ReplyOp};
use std::alloc::Global;
use std::fmt::Write;

/// Reads the reply at the front of the bytes: its size, its id and the operation. Tells it where the
/// reply is not written by these very bytes.
pub fn read(alloc: Global, fields: &mut Fields<'_>, told: &mut String) -> Result<(), CaseFault> {
    let bytes = fields.bytes(alloc)?;
    match read_reply(alloc, bytes.as_slice()) {
        Ok((reply, size)) => {
            let copy = or_memory(reply.clone())?;
            tell_reply(told, &copy, size)?;
            tell_writing(alloc, told, &reply, bytes.as_slice())
        }
        Err(fault) => tell_fault(told, fault),
    }
}

fn tell_reply(told: &mut String, reply: &Reply, size: usize) -> Result<(), CaseFault> {
    let (id, name) = (reply.id, name_of(&reply.op));
    write!(told, "{size} bytes, id {id}, {name}")?;
    if let Some(ended) = result_of(&reply.op) {
        tell_result(told, ended)?;
    }
    match &reply.op {
        ReplyOp::Entry { name, attrs } => {
            tell(told, name)?;
            tell_attributes(told, attrs.as_slice())
        }
        ReplyOp::Extended { oid, value, .. } => {
            tell_optional(told, oid)?;
            tell_optional(told, value)
        }
        _ => Ok(()),
    }
}

/// The name of the operation.
fn name_of(op: &ReplyOp) -> &'static str {
    match op {
        ReplyOp::Bind(_) => "bind",
        ReplyOp::Entry { .. } => "entry",
        ReplyOp::Done(_) => "done",
        ReplyOp::Modify(_) => "modify",
        ReplyOp::Add(_) => "add",
        ReplyOp::Delete(_) => "delete",
        ReplyOp::Rename(_) => "rename",
        ReplyOp::Compare(_) => "compare",
        ReplyOp::Extended { .. } => "extended",
    }
}

/// The result of the operation, where it has one.
fn result_of(op: &ReplyOp) -> Option<&LdapResult> {
    match op {
        ReplyOp::Bind(ended) => Some(ended),
        ReplyOp::Entry { .. } => None,
        ReplyOp::Done(ended) => Some(ended),
        ReplyOp::Modify(ended) => Some(ended),
        ReplyOp::Add(ended) => Some(ended),
        ReplyOp::Delete(ended) => Some(ended),
        ReplyOp::Rename(ended) => Some(ended),
        ReplyOp::Compare(ended) => Some(ended),
        ReplyOp::Extended { result, .. } => Some(result),
    }
}

/// Appends the code, the matched name and the text for people.
fn tell_result(told: &mut String, ended: &LdapResult) -> Result<(), CaseFault> {
    let code = ended.code.number;
    write!(told, " {code}")?;
    tell(told, &ended.matched)?;
    tell(told, &ended.text)
}

/// Writes the reply behind two bytes, and tells it where other bytes come of it.
fn tell_writing(
    alloc: Global,
    told: &mut String,
    reply: &Reply,
    bytes: &[u8],
) -> Result<(), CaseFault> {
    let mut out = or_memory(Bytes::from_slice(alloc, b"ab".as_slice()))?;
    or_memory(write_reply(alloc, &mut out, reply))?;
    let behind = out.as_slice().get(2..);
    if !behind.is_some_and(|written| bytes.starts_with(written)) {
        told.push_str(", written otherwise")?;
    }
    Ok(())
}

/// Whether each proper front of the bytes wants more, and where the first does not.
pub fn fronts(alloc: Global, fields: &mut Fields<'_>, told: &mut String) -> Result<(), CaseFault> {
    let bytes = fields.bytes(alloc)?;
    let count = bytes.len();
    for n in 0..count {
        let fault = read_reply(alloc, &bytes[..n]).err();
        if fault != Some(ReadFault::More) {
            write!(told, "not {n}")?;
            return Ok(());
        }
    }
    write!(told, "all {count}")?;
    Ok(())
}
