//! What a request reads as.

use crate::fault::tell_fault;
use crate::op::tell_op;
use crate::parts::{tell, tell_optional};
use case_lines::{CaseFault, Fields};
use ldap_requests::{ReadFault, read_request};
use ldap_types::{ControlList, Request};
use std::alloc::Global;
use std::fmt::Write;

/// Reads the request at the front of the bytes: its size, its id, the operation and the controls.
pub fn read(alloc: Global, fields: &mut Fields<'_>, told: &mut String) -> Result<(), CaseFault> {
    let bytes = fields.bytes(alloc)?;
    match read_request(alloc, bytes.as_slice()) {
        Ok((request, size)) => tell_request(told, &request, size),
        Err(fault) => tell_fault(told, fault),
    }
}

fn tell_request(told: &mut String, request: &Request, size: usize) -> Result<(), CaseFault> {
    let id = request.id;
    write!(told, "{size} bytes, id {id}, ")?;
    tell_op(told, &request.op)?;
    tell_controls(told, &request.controls)
}

fn tell_controls(told: &mut String, controls: &ControlList) -> Result<(), CaseFault> {
    for control in controls.as_slice() {
        told.push_str(", control")?;
        tell(told, &control.oid)?;
        let critical = control.critical;
        write!(told, " {critical}")?;
        tell_optional(told, &control.value)?;
    }
    Ok(())
}

/// Whether each proper front of the bytes wants more, and where the first does not.
pub fn fronts(alloc: Global, fields: &mut Fields<'_>, told: &mut String) -> Result<(), CaseFault> {
    let bytes = fields.bytes(alloc)?;
    let count = bytes.len();
    for n in 0..count {
        let fault = read_request(alloc, &bytes[..n]).err();
        if fault != Some(ReadFault::More) {
            write!(told, "not {n}")?;
            return Ok(());
        }
    }
    write!(told, "all {count}")?;
    Ok(())
}
