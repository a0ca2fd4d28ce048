//! Writing updates.

ghost use Rattle.std.specs.Prelude.{◌≡◌, ◌++◌, IfOk, OnOk};
ghost use Rattle.std.specs.List.{flat_map};
ghost use Rattle.repl_data.specs.declared.change.Val.{Val};
ghost use Rattle.repl_data.specs.declared.change.Attr.{Attr};
ghost use Rattle.ber_core.specs.Element.{element};
ghost use Rattle.repl_wire.specs.Form.{octet_string};
ghost use Rattle.repl_wire.specs.UpdateForm.{id_name, name_text, kind_number, attribute, dropped_part, fields, control_value, modification, boolean, write_bytes, control_bytes, update_bytes};

use crate::update::update_name;
use ber_core::{write_int, write_tlv};
use dn_text::{Dn, RdnList, print_dn};
use ldap_types::{Bytes, NoMemory};
use repl_data::{Attr, AttrKey, Ava, Body, Mod, ModKind, Rdn, Uid, Update, Val};
use std::alloc::Global;

fn octet_strings(alloc: Global, vals: &[Val]) -> Result<Bytes, NoMemory>
    ensures { IfOk result (λ b. b ≡ flat_map (λ (v : Val). octet_string v.spelled) vals.now) }
{
    let mut out = Bytes::new(alloc);
    for val in vals {
        write_tlv(alloc, &mut out, 0x04, val.spelled.as_slice())?;
    }
    Ok(out)
}

/// A name and the spellings of its values (RFC 4511, section 4.1.7).
#[tactic(auto, unfolding(crate::specs::UpdateForm::attribute))]
fn write_attribute(
    alloc: Global,
    out: &mut Bytes,
    attr: &AttrKey,
    vals: &[Val],
) -> Result<(), NoMemory>
    ensures { OnOk result (out.new ≡ out.old ++ attribute attr.now vals.now) }
{
    let vals = octet_strings(alloc, vals)?;
    let mut body = Bytes::new(alloc);
    write_tlv(alloc, &mut body, 0x04, attr.name.as_slice())?;
    write_tlv(alloc, &mut body, 0x31, vals.as_slice())?;
    write_tlv(alloc, out, 0x30, body.as_slice())
}

fn attribute_elements(alloc: Global, attrs: &[Attr]) -> Result<Bytes, NoMemory>
    ensures { IfOk result (λ b. b ≡ flat_map (λ (a : Attr). attribute a.attr a.vals) attrs.now) }
{
    let mut out = Bytes::new(alloc);
    for attr in attrs {
        write_attribute(alloc, &mut out, &attr.attr, attr.vals.as_slice())?;
    }
    Ok(out)
}

/// The number of a kind (RFC 4511, section 4.6).
fn kind_number(kind: ModKind) -> u8
    ensures { result ≡ kind_number kind }
{
    match kind {
        ModKind::Add => 0,
        ModKind::Delete => 1,
        ModKind::Replace => 2,
    }
}

#[tactic(auto, unfolding(crate::specs::UpdateForm::modification))]
fn write_modification(alloc: Global, out: &mut Bytes, m: &Mod) -> Result<(), NoMemory>
    ensures { OnOk result (out.new ≡ out.old ++ modification m.now) }
{
    let mut body = Bytes::new(alloc);
    write_tlv(alloc, &mut body, 0x0a, &[kind_number(m.kind)])?;
    write_attribute(alloc, &mut body, &m.attr, m.vals.as_slice())?;
    write_tlv(alloc, out, 0x30, body.as_slice())
}

fn modification_elements(alloc: Global, mods: &[Mod]) -> Result<Bytes, NoMemory>
    ensures { IfOk result (λ b. b ≡ flat_map modification mods.now) }
{
    let mut out = Bytes::new(alloc);
    for m in mods {
        write_modification(alloc, &mut out, m)?;
    }
    Ok(out)
}

/// A dropped value, with its attribute.
#[tactic(auto, unfolding(crate::specs::UpdateForm::dropped_part))]
fn write_dropped(alloc: Global, out: &mut Bytes, part: &Ava) -> Result<(), NoMemory>
    ensures { OnOk result (out.new ≡ out.old ++ dropped_part part.now) }
{
    let mut values = Bytes::new(alloc);
    write_tlv(alloc, &mut values, 0x04, part.val.spelled.as_slice())?;
    let mut body = Bytes::new(alloc);
    write_tlv(alloc, &mut body, 0x04, part.attr.name.as_slice())?;
    write_tlv(alloc, &mut body, 0x31, values.as_slice())?;
    write_tlv(alloc, out, 0x30, body.as_slice())
}

fn dropped_elements(alloc: Global, parts: &[Ava]) -> Result<Bytes, NoMemory>
    ensures { IfOk result (λ b. b ≡ flat_map dropped_part parts.now) }
{
    let mut out = Bytes::new(alloc);
    for part in parts {
        write_dropped(alloc, &mut out, part)?;
    }
    Ok(out)
}

/// The text of a relative name (RFC 4514, section 2.2).
fn name_text(alloc: Global, rdn: &Rdn) -> Result<Bytes, NoMemory>
    ensures { IfOk result (λ b. b ≡ name_text rdn.now) }
{
    let mut rdns = RdnList::new(alloc);
    rdns.push(rdn.clone()?)?;
    let dn = Dn { rdns };
    print_dn(alloc, &dn)
}

/// The fields that only some operations have.
fn fields(alloc: Global, body: &Body) -> Result<Bytes, NoMemory>
    ensures { IfOk result (λ b. b ≡ fields body.now) }
{
    let mut out = Bytes::new(alloc);
    match body {
        Body::Add { parent, rdn, .. } => {
            let name = name_text(alloc, rdn)?;
            write_tlv(alloc, &mut out, 0x80, &parent.text())?;
            write_tlv(alloc, &mut out, 0x81, name.as_slice())?;
        }
        Body::Ren { dropped, .. } => {
            let parts = dropped_elements(alloc, dropped.as_slice())?;
            write_tlv(alloc, &mut out, 0xa2, parts.as_slice())?;
        }
        Body::Mod { .. } | Body::Del => {}
    }
    Ok(out)
}

/// What the control of an update carries.
#[tactic(auto, unfolding(crate::specs::UpdateForm::control_value))]
fn control_value(alloc: Global, update: &Update) -> Result<Bytes, NoMemory>
    ensures { IfOk result (λ b. b ≡ control_value update.now) }
{
    let fields = fields(alloc, &update.change.body)?;
    let mut parts = Bytes::new(alloc);
    write_tlv(alloc, &mut parts, 0x04, &update.change.csn.text())?;
    write_tlv(alloc, &mut parts, 0x04, &update.prev.text())?;
    parts.extend_from_slice(fields.as_slice())?;
    let mut value = Bytes::new(alloc);
    write_tlv(alloc, &mut value, 0x30, parts.as_slice())?;
    Ok(value)
}

/// A BOOLEAN (RFC 4511, section 5.1).
fn write_boolean(alloc: Global, out: &mut Bytes, b: bool) -> Result<(), NoMemory>
    ensures { OnOk result (out.new ≡ out.old ++ boolean b) }
{
    let content: u8 = if b { 0xff } else { 0x00 };
    write_tlv(alloc, out, 0x01, &[content])
}

/// The control (RFC 4511, section 4.1.11).
#[tactic(auto, unfolding(crate::specs::UpdateForm::control_bytes))]
fn control_bytes(alloc: Global, update: &Update) -> Result<Bytes, NoMemory>
    ensures { IfOk result (λ b. b ≡ control_bytes update.now) }
{
    let value = control_value(alloc, update)?;
    let mut parts = Bytes::new(alloc);
    write_tlv(alloc, &mut parts, 0x04, update_name())?;
    write_boolean(alloc, &mut parts, true)?;
    write_tlv(alloc, &mut parts, 0x04, value.as_slice())?;
    let mut control = Bytes::new(alloc);
    write_tlv(alloc, &mut control, 0x30, parts.as_slice())?;
    Ok(control)
}

/// The name that an entry goes by.
#[tactic(auto, unfolding(crate::specs::UpdateForm::id_name))]
fn id_name(alloc: Global, id: Uid) -> Result<Bytes, NoMemory>
    ensures { IfOk result (λ b. b ≡ id_name id) }
{
    let mut name = Bytes::from_slice(alloc, b"nsuniqueid=")?;
    name.extend_from_slice(&id.text())?;
    Ok(name)
}

/// The write of the entry of this name.
fn write_bytes(alloc: Global, object: &[u8], body: &Body) -> Result<Bytes, NoMemory>
    ensures { IfOk result (λ b. b ≡ write_bytes object.now body.now) }
{
    let mut out = Bytes::new(alloc);
    match body {
        Body::Add { attrs, .. } => {
            let attrs = attribute_elements(alloc, attrs.as_slice())?;
            let parts = named_list(alloc, object, attrs.as_slice())?;
            write_tlv(alloc, &mut out, 0x68, parts.as_slice())?;
        }
        Body::Mod { mods } => {
            let mods = modification_elements(alloc, mods.as_slice())?;
            let parts = named_list(alloc, object, mods.as_slice())?;
            write_tlv(alloc, &mut out, 0x66, parts.as_slice())?;
        }
        Body::Ren { rdn, dropped } => {
            let parts = rename_parts(alloc, object, rdn, !dropped.is_empty())?;
            write_tlv(alloc, &mut out, 0x6c, parts.as_slice())?;
        }
        Body::Del => write_tlv(alloc, &mut out, 0x4a, object)?,
    }
    Ok(out)
}

fn named_list(alloc: Global, object: &[u8], list: &[u8]) -> Result<Bytes, NoMemory>
    ensures { IfOk result (λ b. b ≡ octet_string object.now ++ element 0x30 list.now) }
{
    let mut parts = Bytes::new(alloc);
    write_tlv(alloc, &mut parts, 0x04, object)?;
    write_tlv(alloc, &mut parts, 0x30, list)?;
    Ok(parts)
}

fn rename_parts(
    alloc: Global,
    object: &[u8],
    rdn: &Rdn,
    delete_old: bool,
) -> Result<Bytes, NoMemory>
    ensures { IfOk result (λ b. b ≡ octet_string object.now ++ octet_string (name_text rdn.now) ++ boolean delete_old) }
{
    let name = name_text(alloc, rdn)?;
    let mut parts = Bytes::new(alloc);
    write_tlv(alloc, &mut parts, 0x04, object)?;
    write_tlv(alloc, &mut parts, 0x04, name.as_slice())?;
    write_boolean(alloc, &mut parts, delete_old)?;
    Ok(parts)
}

/// The message of an update with this id. In time and memory proportional to the update.
#[tactic(auto, unfolding(crate::specs::UpdateForm::update_bytes))]
pub fn write_update(alloc: Global, id: u32, update: &Update) -> Result<Bytes, NoMemory>
    ensures { IfOk result (λ b. b ≡ update_bytes id update.now) }
{
    let object = id_name(alloc, update.change.target)?;
    let write = write_bytes(alloc, object.as_slice(), &update.change.body)?;
    let control = control_bytes(alloc, update)?;
    let mut body = Bytes::new(alloc);
    write_int(alloc, &mut body, id as i64)?;
    body.extend_from_slice(write.as_slice())?;
    write_tlv(alloc, &mut body, 0xa0, control.as_slice())?;
    let mut message = Bytes::new(alloc);
    write_tlv(alloc, &mut message, 0x30, body.as_slice())?;
    Ok(message)
}
