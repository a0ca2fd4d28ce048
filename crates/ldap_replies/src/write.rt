//! Writing a reply.

ghost use Rattle.std.specs.Prelude.{◌≡◌, ◌++◌, IfOk, OnOk, OnErr};
ghost use Rattle.std.specs.List.{flat_map};
ghost use Rattle.ldap_replies.specs.Form.{octet_string, enumerated, optional, ldap_result, partial_attribute, partial_attribute_list, protocol_op, reply_bytes};

use ber_core::{write_int, write_tlv};
use ldap_types::{Bytes, BytesList, LdapResult, NoMemory, RawAttr, RawAttrList, Reply, ReplyOp};
use std::alloc::Global;

/// An ENUMERATED is an INTEGER under another tag (X.690, section 8.4).
fn write_enumerated(alloc: Global, out: &mut Bytes, value: u32) -> Result<(), NoMemory>
    ensures { OnOk result (out.new ≡ out.old ++ enumerated value) }
{
    let at = out.len();
    write_int(alloc, out, value as i64)?;
    out.set(at, 0x0a);
    Ok(())
}

fn write_optional(
    alloc: Global,
    out: &mut Bytes,
    tag: u8,
    bytes: &Option<Bytes>,
) -> Result<(), NoMemory>
    ensures { OnOk result (out.new ≡ out.old ++ optional tag bytes.now) }
{
    match bytes {
        Some(bytes) => write_tlv(alloc, out, tag, bytes.as_slice()),
        None => Ok(()),
    }
}

/// The elements of the texts, one after the other.
fn octet_strings(alloc: Global, texts: &BytesList) -> Result<Bytes, NoMemory>
    ensures { IfOk result (λ b. b ≡ flat_map octet_string texts.now) }
{
    let mut out = Bytes::new(alloc);
    for text in texts.as_slice() {
        write_tlv(alloc, &mut out, 0x04, text.as_slice())?;
    }
    Ok(out)
}

/// The parts that each result begins with (RFC 4511, section 4.1.9).
#[tactic(auto, unfolding(crate::specs::Form::ldap_result))]
fn result_parts(alloc: Global, ended: &LdapResult) -> Result<Bytes, NoMemory>
    ensures { IfOk result (λ b. b ≡ ldap_result ended.now) }
{
    let mut out = Bytes::new(alloc);
    write_enumerated(alloc, &mut out, ended.code.number)?;
    write_tlv(alloc, &mut out, 0x04, ended.matched.as_slice())?;
    write_tlv(alloc, &mut out, 0x04, ended.text.as_slice())?;
    Ok(out)
}

/// A name and a set of values (RFC 4511, section 4.1.7).
#[tactic(auto, unfolding(crate::specs::Form::partial_attribute))]
fn write_attribute(alloc: Global, out: &mut Bytes, attr: &RawAttr) -> Result<(), NoMemory>
    ensures { OnOk result (out.new ≡ out.old ++ partial_attribute attr.now) }
{
    let vals = octet_strings(alloc, &attr.vals)?;
    let mut body = Bytes::new(alloc);
    write_tlv(alloc, &mut body, 0x04, attr.name.as_slice())?;
    write_tlv(alloc, &mut body, 0x31, vals.as_slice())?;
    write_tlv(alloc, out, 0x30, body.as_slice())
}

/// The elements of the attributes, one after the other.
fn attribute_elements(alloc: Global, attrs: &RawAttrList) -> Result<Bytes, NoMemory>
    ensures { IfOk result (λ b. b ≡ flat_map partial_attribute attrs.now) }
{
    let mut out = Bytes::new(alloc);
    for attr in attrs.as_slice() {
        write_attribute(alloc, &mut out, attr)?;
    }
    Ok(out)
}

/// What is inside a search result entry (RFC 4511, section 4.5.2).
fn entry_parts(alloc: Global, name: &Bytes, attrs: &RawAttrList) -> Result<Bytes, NoMemory>
    ensures { IfOk result (λ b. b ≡ octet_string name.now ++ partial_attribute_list attrs.now) }
{
    let attrs = attribute_elements(alloc, attrs)?;
    let mut out = Bytes::new(alloc);
    write_tlv(alloc, &mut out, 0x04, name.as_slice())?;
    write_tlv(alloc, &mut out, 0x30, attrs.as_slice())?;
    Ok(out)
}

/// What is inside an extended response (RFC 4511, section 4.12).
fn extended_parts(
    alloc: Global,
    ended: &LdapResult,
    oid: &Option<Bytes>,
    value: &Option<Bytes>,
) -> Result<Bytes, NoMemory>
    ensures { IfOk result (λ b.
        b ≡ ldap_result ended.now ++ optional 0x8a oid.now ++ optional 0x8b value.now) }
{
    let mut out = result_parts(alloc, ended)?;
    write_optional(alloc, &mut out, 0x8a, oid)?;
    write_optional(alloc, &mut out, 0x8b, value)?;
    Ok(out)
}

fn write_op(alloc: Global, out: &mut Bytes, op: &ReplyOp) -> Result<(), NoMemory>
    ensures { OnOk result (out.new ≡ out.old ++ protocol_op op.now) }
{
    let (tag, body) = match op {
        ReplyOp::Bind(ended) => (0x61, result_parts(alloc, ended)?),
        ReplyOp::Entry { name, attrs } => (0x64, entry_parts(alloc, name, attrs)?),
        ReplyOp::Done(ended) => (0x65, result_parts(alloc, ended)?),
        ReplyOp::Modify(ended) => (0x67, result_parts(alloc, ended)?),
        ReplyOp::Add(ended) => (0x69, result_parts(alloc, ended)?),
        ReplyOp::Delete(ended) => (0x6b, result_parts(alloc, ended)?),
        ReplyOp::Rename(ended) => (0x6d, result_parts(alloc, ended)?),
        ReplyOp::Compare(ended) => (0x6f, result_parts(alloc, ended)?),
        ReplyOp::Extended { result, oid, value } => {
            (0x78, extended_parts(alloc, result, oid, value)?)
        }
    };
    write_tlv(alloc, out, tag, body.as_slice())
}

/// Appends the one form of a reply: each length and each integer in the fewest bytes (RFC 4511,
/// sections 4 and 5.1; X.690, sections 8.1.3 and 8.3.2).
///
/// A reply of more than 2,097,152 bytes is written too, and read by nobody; see `reply_laws`. In
/// time and memory proportional to the reply.
#[tactic(auto, unfolding(crate::specs::Form::reply_bytes))]
pub fn write_reply(alloc: Global, out: &mut Bytes, reply: &Reply) -> Result<(), NoMemory>
    ensures ok { OnOk result (out.new ≡ out.old ++ reply_bytes reply.now) }
    ensures err { OnErr result (out.new ≡ out.old) }
{
    let mut body = Bytes::new(alloc);
    write_int(alloc, &mut body, reply.id as i64)?;
    write_op(alloc, &mut body, &reply.op)?;
    write_tlv(alloc, out, 0x30, body.as_slice())
}
