//! Single messages.

use crate::ends::Told;
use case_lines::{CaseFault, Fields, or_memory, tell_bytes};
use ldap_replies::{read_reply, write_reply};
use ldap_requests::read_request;
use ldap_types::{Bytes, Reply, Request};
use replica_session::Consumer;
use std::alloc::Global;

/// The time of all cases, in seconds since 1970.
pub const NOW: u32 = 200;

/// The request that is all of these bytes.
pub fn request(alloc: Global, bytes: &[u8]) -> Result<Request, CaseFault> {
    match read_request(alloc, bytes) {
        Ok((request, size)) if size == bytes.len() => Ok(request),
        _ => Err(CaseFault::Argument),
    }
}

/// The reply that is read of the bytes that this one is written as.
pub fn over_bytes(alloc: Global, reply: &Reply) -> Result<Reply, CaseFault> {
    let bytes = written(alloc, reply)?;
    match read_reply(alloc, bytes.as_slice()) {
        Ok((reply, size)) if size == bytes.len() => Ok(reply),
        _ => Err(CaseFault::Argument),
    }
}

fn written(alloc: Global, reply: &Reply) -> Result<Bytes, CaseFault> {
    let mut bytes = Bytes::new(alloc);
    or_memory(write_reply(alloc, &mut bytes, reply))?;
    Ok(bytes)
}

/// The bytes of what the consumer answers to the bytes of the next word.
fn heard(
    alloc: Global,
    consumer: &mut Consumer,
    node: &mut Told,
    fields: &mut Fields<'_>,
) -> Result<Bytes, CaseFault> {
    let bytes = fields.bytes(alloc)?;
    let message = request(alloc, bytes.as_slice())?;
    let reply = or_memory(consumer.hear(alloc, node, &message, NOW))?;
    written(alloc, &reply)
}

/// What the consumer answers to the first bytes: `as wanted` where it is the second ones, or else its bytes.
pub fn hear(
    alloc: Global,
    consumer: &mut Consumer,
    node: &mut Told,
    fields: &mut Fields<'_>,
    told: &mut String,
) -> Result<(), CaseFault> {
    let bytes = heard(alloc, consumer, node, fields)?;
    let wanted = fields.bytes(alloc)?;
    if bytes.as_slice() == wanted.as_slice() {
        told.push_str("as wanted")?;
        return Ok(());
    }
    tell_bytes(told, bytes.as_slice())
}
