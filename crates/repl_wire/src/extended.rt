//! Extended requests and answers: their names and values (RFC 4511, section 4.12).

ghost use Rattle.std.specs.Prelude.{◌≡◌, IfOk, MatchResult, Ok, Err};
ghost use Rattle.repl_wire.specs.Form.{start_name, end_name, extended_bytes};
ghost use Rattle.repl_wire.specs.Reading.{given, value_of, answer_of};

use crate::fault::{WireFault, WireWhy};
use ber_core::{write_int, write_tlv};
use ldap_types::{Bytes, Code, NoMemory, Op, ReplyOp};
use std::alloc::Global;

/// The name of a start.
#[tactic(auto, unfolding(crate::specs::Form::start_name))]
pub fn start_name() -> &'static [u8]
    ensures { result.now ≡ start_name }
{
    b"2.999.389.1".as_slice()
}

/// The name of an end.
#[tactic(auto, unfolding(crate::specs::Form::end_name))]
pub fn end_name() -> &'static [u8]
    ensures { result.now ≡ end_name }
{
    b"2.999.389.2".as_slice()
}

/// An extended request with this name and this value, in its message.
#[tactic(auto, unfolding(crate::specs::Form::extended_bytes))]
pub(crate) fn write_extended(
    alloc: Global,
    id: u32,
    name: &[u8],
    value: &[u8],
) -> Result<Bytes, NoMemory>
    ensures { IfOk result (λ b. b ≡ extended_bytes id name.now value.now) }
{
    let mut parts = Bytes::new(alloc);
    write_tlv(alloc, &mut parts, 0x80, name)?;
    write_tlv(alloc, &mut parts, 0x81, value)?;
    let mut body = Bytes::new(alloc);
    write_int(alloc, &mut body, id as i64)?;
    write_tlv(alloc, &mut body, 0x77, parts.as_slice())?;
    let mut message = Bytes::new(alloc);
    write_tlv(alloc, &mut message, 0x30, body.as_slice())?;
    Ok(message)
}

fn given(value: &Option<Bytes>) -> Result<&[u8], WireFault>
    ensures { MatchResult result (λ v. given value.now ≡ Ok v.now) (λ e. given value.now ≡ Err e) }
{
    match value {
        Some(value) => Ok(value.as_slice()),
        None => Err(WireFault::Bad {
            place: 0,
            why: WireWhy::NoValue,
        }),
    }
}

/// The value of an extended request of this name.
pub(crate) fn value_of<'a>(name: &[u8], op: &'a Op) -> Result<&'a [u8], WireFault>
    ensures { MatchResult result (λ v. value_of name.now op.now ≡ Ok v.now) (λ e. value_of name.now op.now ≡ Err e) }
{
    match op {
        Op::Extended { oid, value } => {
            if oid.as_slice() == name {
                given(value)
            } else {
                Err(WireFault::Bad {
                    place: 0,
                    why: WireWhy::Op,
                })
            }
        }
        _ => Err(WireFault::Bad {
            place: 0,
            why: WireWhy::Op,
        }),
    }
}

/// The value of an extended answer with the code 0.
pub(crate) fn answer_of(op: &ReplyOp) -> Result<&[u8], WireFault>
    ensures { MatchResult result (λ v. answer_of op.now ≡ Ok v.now) (λ e. answer_of op.now ≡ Err e) }
{
    match op {
        ReplyOp::Extended { result, value, .. } => {
            if result.code.number == Code::SUCCESS.number {
                given(value)
            } else {
                Err(WireFault::Bad {
                    place: 0,
                    why: WireWhy::Code,
                })
            }
        }
        _ => Err(WireFault::Bad {
            place: 0,
            why: WireWhy::Op,
        }),
    }
}
