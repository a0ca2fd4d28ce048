//! What bytes are read as.

use case_changes::{tell_change, tell_csn};
use case_lines::{CaseFault, Fields, tell_text};
use ldap_replies::read_reply;
use ldap_requests::read_request;
use ldap_types::{Reply, Request};
use repl_data::Update;
use repl_wire::{Start, Vector, WireFault, read_end, read_start, read_started, read_update};
use std::alloc::Global;
use std::fmt::Write;

/// The request that is all of these bytes.
fn request_of(alloc: Global, bytes: &[u8]) -> Result<Request, CaseFault> {
    match read_request(alloc, bytes) {
        Ok((request, size)) if size == bytes.len() => Ok(request),
        _ => Err(CaseFault::Argument),
    }
}

fn request(alloc: Global, fields: &mut Fields<'_>) -> Result<Request, CaseFault> {
    let bytes = fields.bytes(alloc)?;
    request_of(alloc, bytes.as_slice())
}

/// The reply that these bytes begin with.
fn reply_of(alloc: Global, bytes: &[u8]) -> Result<Reply, CaseFault> {
    match read_reply(alloc, bytes) {
        Ok((reply, _size)) => Ok(reply),
        Err(_) => Err(CaseFault::Argument),
    }
}

fn reply(alloc: Global, fields: &mut Fields<'_>) -> Result<Reply, CaseFault> {
    let bytes = fields.bytes(alloc)?;
    reply_of(alloc, bytes.as_slice())
}

/// Tells the fault. That memory ran out answers no case.
fn tell_fault(told: &mut String, fault: WireFault) -> Result<(), CaseFault> {
    match fault {
        WireFault::NoMemory => Err(CaseFault::NoMemory),
        WireFault::Bad { place, why } => {
            write!(told, "at {place} {why:?}")?;
            Ok(())
        }
    }
}

fn tell_vector(told: &mut String, vector: &Vector) -> Result<(), CaseFault> {
    if vector.entries().is_empty() {
        told.push_str("-")?;
    }
    let mut between = "";
    for csn in vector.entries() {
        told.push_str(between)?;
        tell_csn(told, *csn)?;
        between = ",";
    }
    Ok(())
}

fn tell_start(told: &mut String, start: &Start) -> Result<(), CaseFault> {
    tell_text(told, start.suffix.as_slice())?;
    let rid = start.rid;
    write!(told, " {rid} ")?;
    tell_vector(told, &start.front)
}

fn start_of(alloc: Global, request: &Request, told: &mut String) -> Result<(), CaseFault> {
    match read_start(alloc, request) {
        Ok(start) => tell_start(told, &start),
        Err(fault) => tell_fault(told, fault),
    }
}

pub fn start(alloc: Global, fields: &mut Fields<'_>, told: &mut String) -> Result<(), CaseFault> {
    let request = request(alloc, fields)?;
    start_of(alloc, &request, told)
}

fn started_of(alloc: Global, reply: &Reply, told: &mut String) -> Result<(), CaseFault> {
    match read_started(alloc, reply) {
        Ok(vector) => tell_vector(told, &vector),
        Err(fault) => tell_fault(told, fault),
    }
}

pub fn started(alloc: Global, fields: &mut Fields<'_>, told: &mut String) -> Result<(), CaseFault> {
    let reply = reply(alloc, fields)?;
    started_of(alloc, &reply, told)
}

fn end_of(alloc: Global, request: &Request, told: &mut String) -> Result<(), CaseFault> {
    match read_end(alloc, request) {
        Ok(end) => {
            let rid = end.rid;
            write!(told, "{rid}")?;
            Ok(())
        }
        Err(fault) => tell_fault(told, fault),
    }
}

pub fn end(alloc: Global, fields: &mut Fields<'_>, told: &mut String) -> Result<(), CaseFault> {
    let request = request(alloc, fields)?;
    end_of(alloc, &request, told)
}

/// The CSN before, and the change.
fn tell_update(told: &mut String, update: &Update) -> Result<(), CaseFault> {
    tell_csn(told, update.prev)?;
    told.push_str(" ")?;
    tell_change(told, &update.change)
}

fn update_of(alloc: Global, request: &Request, told: &mut String) -> Result<(), CaseFault> {
    match read_update(alloc, request) {
        Ok(update) => tell_update(told, &update),
        Err(fault) => tell_fault(told, fault),
    }
}

pub fn update(alloc: Global, fields: &mut Fields<'_>, told: &mut String) -> Result<(), CaseFault> {
    let request = request(alloc, fields)?;
    update_of(alloc, &request, told)
}
