//! Vectors in values.

ghost use Rattle.std.specs.Prelude.{◌≡◌, ◌<◌, ◌++◌, length, IfOk, Option, Some, None, ◌==◌, if◌then◌else◌, ℕ};
ghost use Rattle.std.specs.List.{flat_map};
ghost use Rattle.ber_core.specs.Cursor.{Gives, window, with_window};
ghost use Rattle.ber_core.specs.Window.{element};
ghost use Rattle.repl_data.specs.declared.csn.Csn.{Csn};
ghost use Rattle.repl_data.specs.Text.{csn_bytes, csn_of};
ghost use Rattle.repl_wire.specs.Form.{octet_string, vector_value};
ghost use Rattle.repl_wire.specs.Value.{csn_inside, vector_inside, vector_here, replica_id};

use ber_core::{Cursor, NotLdapWhy, ReadFault, write_tlv};
use ldap_types::{Bytes, NoMemory};
use repl_data::Csn;
use std::alloc::Global;
use vector_core::Vector;

fn csn_elements(alloc: Global, csns: &[Csn]) -> Result<Bytes, NoMemory>
    ensures { IfOk result (λ b. b ≡ flat_map (λ (c : Csn). octet_string (csn_bytes c)) csns.now) }
{
    let mut out = Bytes::new(alloc);
    for csn in csns {
        let bytes = csn.bytes();
        write_tlv(alloc, &mut out, 0x04, &bytes)?;
    }
    Ok(out)
}

/// Appends the vector: the ten bytes of each entry, in rising order of replica id.
#[tactic(auto, unfolding(crate::specs::Form::vector_value))]
pub(crate) fn vector_bytes(alloc: Global, vector: &Vector) -> Result<Bytes, NoMemory>
    ensures { IfOk result (λ b. b ≡ vector_value vector.now) }
{
    let parts = csn_elements(alloc, vector.entries())?;
    let mut out = Bytes::new(alloc);
    write_tlv(alloc, &mut out, 0x30, parts.as_slice())?;
    Ok(out)
}

/// The replica id that is the content, in this range.
#[tactic(auto, unfolding(crate::specs::Value::replica_id))]
pub(crate) fn replica_id(least: u16, most: u16, w: Cursor) -> Result<u16, ReadFault>
    ensures { Gives (λ n. n) result (replica_id least most (window w.entry)) }
{
    let value = w.int()?;
    if value < least as i64 || value > most as i64 {
        return Err(ReadFault::NotLdap {
            place: w.start,
            why: NotLdapWhy::Shape,
        });
    }
    Ok(value as u16)
}

/// The CSN of ten bytes.
fn csn_of(bytes: &[u8]) -> Option<Csn>
    ensures { result ≡ (if length bytes.now == 10 then Some (csn_of bytes.now) else None) }
{
    match bytes {
        [a, b, c, d, e, f, g, h, i, j] => Some(Csn::from_bytes([
            *a, *b, *c, *d, *e, *f, *g, *h, *i, *j,
        ])),
        _ => None,
    }
}

/// The CSN that is the content, of a replica above the one before.
#[tactic(auto, unfolding(crate::specs::Value::csn_inside))]
fn csn_inside(last: u16, w: Cursor) -> Result<Csn, ReadFault>
    ensures gives { Gives (λ c. c) result (csn_inside last (window w.entry)) }
    ensures above { IfOk result (λ c. last < c.rid) }
{
    match csn_of(w.octets()?) {
        Some(csn) if last < csn.rid && csn.rid < u16::MAX => Ok(csn),
        _ => Err(ReadFault::NotLdap {
            place: w.start,
            why: NotLdapWhy::Shape,
        }),
    }
}

#[tactic(auto, unfolding(ber_core::specs::Window::element))]
fn csn_here(last: u16, w: Cursor<'_>) -> Result<(Csn, Cursor<'_>), ReadFault>
    ensures gives { Gives with_window result (element 0x04 (csn_inside last) (window w.entry)) }
    ensures above { IfOk result (λ p. last < p.0.rid) }
{
    let (inside, rest) = w.open_as(0x04)?;
    Ok((csn_inside(last, inside)?, rest))
}

fn vector_inside(alloc: Global, w: Cursor) -> Result<Vector, ReadFault>
    ensures { Gives (λ v. v) result (vector_inside (window w.entry)) }
{
    let mut vector = Vector::new(alloc)?;
    let mut last = 0;
    let mut here = w;
    for _ in 0..w.left {
        if here.left == 0 {
            return Ok(vector);
        }
        let (csn, rest) = csn_here(last, here)?;
        vector.raise(alloc, csn)?;
        last = csn.rid;
        here = rest;
    }
    Ok(vector)
}

/// The vector here, and what is after it.
#[tactic(auto, unfolding(ber_core::specs::Window::element))]
pub(crate) fn vector_here(alloc: Global, w: Cursor<'_>) -> Result<(Vector, Cursor<'_>), ReadFault>
    ensures { Gives with_window result (vector_here (window w.entry)) }
{
    let (inside, rest) = w.open_as(0x30)?;
    Ok((vector_inside(alloc, inside)?, rest))
}
