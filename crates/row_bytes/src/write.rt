//! A change to bytes.

ghost use Rattle.std.specs.Prelude.{◌≡◌, ◌++◌, IfOk, OnOk};
ghost use Rattle.std.specs.List.{flat_map};
ghost use Rattle.row_bytes.specs.Form.{integer, csn_string, val_bytes, vals_bytes, ava_bytes, avas_bytes, attr_bytes, attrs_bytes, kind_number, mod_bytes, body_bytes, row_of};

use ber_core::{write_int, write_tlv};
use repl_data::{
    Attr, AttrList, Ava, AvaList, Body, Bytes, Change, Csn, Mod, ModKind, ModList, NoMemory, Rdn,
    Uid, Val, ValList,
};
use std::alloc::Global;

fn write_csn(alloc: Global, out: &mut Bytes, csn: Csn) -> Result<(), NoMemory>
    ensures { OnOk result (out.new ≡ out.old ++ csn_string csn) }
{
    write_tlv(alloc, out, 0x04, csn.bytes().as_slice())
}

#[tactic(auto, unfolding(crate::specs::Form::val_bytes))]
fn write_val(alloc: Global, out: &mut Bytes, val: &Val) -> Result<(), NoMemory>
    ensures { OnOk result (out.new ≡ out.old ++ val_bytes val.now) }
{
    let mut parts = Bytes::new(alloc);
    write_tlv(alloc, &mut parts, 0x04, val.key.as_slice())?;
    write_tlv(alloc, &mut parts, 0x04, val.spelled.as_slice())?;
    write_tlv(alloc, out, 0x30, parts.as_slice())
}

fn val_elements(alloc: Global, vals: &ValList) -> Result<Bytes, NoMemory>
    ensures { IfOk result (λ b. b ≡ flat_map val_bytes vals.now) }
{
    let mut out = Bytes::new(alloc);
    for val in vals.as_slice() {
        write_val(alloc, &mut out, val)?;
    }
    Ok(out)
}

fn write_vals(alloc: Global, out: &mut Bytes, vals: &ValList) -> Result<(), NoMemory>
    ensures { OnOk result (out.new ≡ out.old ++ vals_bytes vals.now) }
{
    let elements = val_elements(alloc, vals)?;
    write_tlv(alloc, out, 0x30, elements.as_slice())
}

#[tactic(auto, unfolding(crate::specs::Form::ava_bytes))]
fn write_ava(alloc: Global, out: &mut Bytes, ava: &Ava) -> Result<(), NoMemory>
    ensures { OnOk result (out.new ≡ out.old ++ ava_bytes ava.now) }
{
    let mut parts = Bytes::new(alloc);
    write_tlv(alloc, &mut parts, 0x04, ava.attr.name.as_slice())?;
    write_tlv(alloc, &mut parts, 0x04, ava.val.key.as_slice())?;
    write_tlv(alloc, &mut parts, 0x04, ava.val.spelled.as_slice())?;
    write_tlv(alloc, out, 0x30, parts.as_slice())
}

fn ava_elements(alloc: Global, avas: &AvaList) -> Result<Bytes, NoMemory>
    ensures { IfOk result (λ b. b ≡ flat_map ava_bytes avas.now) }
{
    let mut out = Bytes::new(alloc);
    for ava in avas.as_slice() {
        write_ava(alloc, &mut out, ava)?;
    }
    Ok(out)
}

fn write_avas(alloc: Global, out: &mut Bytes, avas: &AvaList) -> Result<(), NoMemory>
    ensures { OnOk result (out.new ≡ out.old ++ avas_bytes avas.now) }
{
    let elements = ava_elements(alloc, avas)?;
    write_tlv(alloc, out, 0x30, elements.as_slice())
}

#[tactic(auto, unfolding(crate::specs::Form::attr_bytes))]
fn write_attr(alloc: Global, out: &mut Bytes, attr: &Attr) -> Result<(), NoMemory>
    ensures { OnOk result (out.new ≡ out.old ++ attr_bytes attr.now) }
{
    let mut parts = Bytes::new(alloc);
    write_tlv(alloc, &mut parts, 0x04, attr.attr.name.as_slice())?;
    write_vals(alloc, &mut parts, &attr.vals)?;
    write_tlv(alloc, out, 0x30, parts.as_slice())
}

fn attr_elements(alloc: Global, attrs: &AttrList) -> Result<Bytes, NoMemory>
    ensures { IfOk result (λ b. b ≡ flat_map attr_bytes attrs.now) }
{
    let mut out = Bytes::new(alloc);
    for attr in attrs.as_slice() {
        write_attr(alloc, &mut out, attr)?;
    }
    Ok(out)
}

fn write_attrs(alloc: Global, out: &mut Bytes, attrs: &AttrList) -> Result<(), NoMemory>
    ensures { OnOk result (out.new ≡ out.old ++ attrs_bytes attrs.now) }
{
    let elements = attr_elements(alloc, attrs)?;
    write_tlv(alloc, out, 0x30, elements.as_slice())
}

/// As in a modify request (RFC 4511, section 4.6).
fn write_kind(alloc: Global, out: &mut Bytes, kind: ModKind) -> Result<(), NoMemory>
    ensures { OnOk result (out.new ≡ out.old ++ integer (kind_number kind)) }
{
    match kind {
        ModKind::Add => write_int(alloc, out, 0),
        ModKind::Delete => write_int(alloc, out, 1),
        ModKind::Replace => write_int(alloc, out, 2),
    }
}

#[tactic(auto, unfolding(crate::specs::Form::mod_bytes))]
fn write_mod(alloc: Global, out: &mut Bytes, one: &Mod) -> Result<(), NoMemory>
    ensures { OnOk result (out.new ≡ out.old ++ mod_bytes one.now) }
{
    let mut parts = Bytes::new(alloc);
    write_kind(alloc, &mut parts, one.kind)?;
    write_tlv(alloc, &mut parts, 0x04, one.attr.name.as_slice())?;
    write_vals(alloc, &mut parts, &one.vals)?;
    write_tlv(alloc, out, 0x30, parts.as_slice())
}

fn mod_elements(alloc: Global, mods: &ModList) -> Result<Bytes, NoMemory>
    ensures { IfOk result (λ b. b ≡ flat_map mod_bytes mods.now) }
{
    let mut out = Bytes::new(alloc);
    for one in mods.as_slice() {
        write_mod(alloc, &mut out, one)?;
    }
    Ok(out)
}

/// What is inside an Add.
fn add_parts(alloc: Global, parent: Uid, rdn: &Rdn, attrs: &AttrList) -> Result<Bytes, NoMemory>
    ensures { IfOk result (λ b.
        b ≡ csn_string parent.csn ++ avas_bytes rdn.now.avas ++ attrs_bytes attrs.now) }
{
    let mut out = Bytes::new(alloc);
    write_csn(alloc, &mut out, parent.csn)?;
    write_avas(alloc, &mut out, &rdn.avas)?;
    write_attrs(alloc, &mut out, attrs)?;
    Ok(out)
}

/// What is inside a Ren.
fn ren_parts(alloc: Global, rdn: &Rdn, dropped: &AvaList) -> Result<Bytes, NoMemory>
    ensures { IfOk result (λ b. b ≡ avas_bytes rdn.now.avas ++ avas_bytes dropped.now) }
{
    let mut out = Bytes::new(alloc);
    write_avas(alloc, &mut out, &rdn.avas)?;
    write_avas(alloc, &mut out, dropped)?;
    Ok(out)
}

fn write_body(alloc: Global, out: &mut Bytes, body: &Body) -> Result<(), NoMemory>
    ensures { OnOk result (out.new ≡ out.old ++ body_bytes body.now) }
{
    let (tag, parts) = match body {
        Body::Add { parent, rdn, attrs } => (0xa0, add_parts(alloc, *parent, rdn, attrs)?),
        Body::Mod { mods } => (0xa1, mod_elements(alloc, mods)?),
        Body::Ren { rdn, dropped } => (0xa2, ren_parts(alloc, rdn, dropped)?),
        Body::Del => (0x83, Bytes::new(alloc)),
    };
    write_tlv(alloc, out, tag, parts.as_slice())
}

/// The bytes of the row of a change: its one spelling, in version 1, with each length and each integer
/// in the fewest bytes (X.690, sections 8.1.3 and 8.3.2).
///
/// Each change has a row, also one that `check` refuses: any CSNs and ids, any bytes as names, keys and
/// spellings, in any order, in lists of any length. In time and memory proportional to the change.
#[tactic(auto, unfolding(crate::specs::Form::row_of))]
pub fn write_change(alloc: Global, change: &Change) -> Result<Bytes, NoMemory>
    ensures { IfOk result (λ b. b ≡ row_of change.now) }
{
    let mut parts = Bytes::new(alloc);
    write_int(alloc, &mut parts, 1)?;
    write_csn(alloc, &mut parts, change.csn)?;
    write_csn(alloc, &mut parts, change.target.csn)?;
    write_body(alloc, &mut parts, &change.body)?;
    let mut out = Bytes::new(alloc);
    write_tlv(alloc, &mut out, 0x30, parts.as_slice())?;
    Ok(out)
}
