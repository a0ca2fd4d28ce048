//! The bind with which a supplier comes.

ghost use Rattle.std.specs.Prelude.{◌≡◌, ◌++◌, IfOk};
ghost use Rattle.ber_core.specs.Element.{element};
ghost use Rattle.replica_session.specs.Messages.{supplier_name, supplier_password, bind_parts, bind_bytes};

use crate::number::BIND;
use ber_core::{write_int, write_tlv};
use ldap_types::{Bytes, NoMemory};
use std::alloc::Global;

#[tactic(auto, unfolding(crate::specs::Messages::supplier_name))]
fn supplier_name() -> &'static [u8]
    ensures { result.now ≡ supplier_name }
{
    b"cn=supplier".as_slice()
}

#[tactic(auto, unfolding(crate::specs::Messages::supplier_password))]
fn supplier_password() -> &'static [u8]
    ensures { result.now ≡ supplier_password }
{
    b"repl".as_slice()
}

#[tactic(auto, unfolding(crate::specs::Messages::bind_parts))]
fn bind_parts(alloc: Global) -> Result<Bytes, NoMemory>
    ensures { IfOk result (λ b. b ≡ bind_parts) }
{
    let mut parts = Bytes::new(alloc);
    write_int(alloc, &mut parts, 3)?;
    write_tlv(alloc, &mut parts, 0x04, supplier_name())?;
    write_tlv(alloc, &mut parts, 0x80, supplier_password())?;
    Ok(parts)
}

/// The message of the bind (RFC 4511, section 4.2).
#[tactic(auto, unfolding(crate::specs::Messages::bind_bytes))]
pub(crate) fn bind_bytes(alloc: Global) -> Result<Bytes, NoMemory>
    ensures { IfOk result (λ b. b ≡ bind_bytes) }
{
    let parts = bind_parts(alloc)?;
    let mut body = Bytes::new(alloc);
    write_int(alloc, &mut body, BIND as i64)?;
    write_tlv(alloc, &mut body, 0x60, parts.as_slice())?;
    let mut message = Bytes::new(alloc);
    write_tlv(alloc, &mut message, 0x30, body.as_slice())?;
    Ok(message)
}
