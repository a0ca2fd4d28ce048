//! Bytes to a change, or the first fault.

ghost use Rattle.std.specs.Prelude.{◌≡◌, IfOk, Ok};
ghost use Rattle.repl_data.specs.declared.change.Change.{Change};
ghost use Rattle.row_bytes.specs.Form.{row_of, IsChangeInRange};
ghost use Rattle.row_bytes.specs.Place.{many};
ghost use Rattle.row_bytes.specs.Given.{Gives, place_of, with_place};
ghost use Rattle.row_bytes.specs.Grammar.{octets, text, csn_inside, csn_here, one_byte, version_inside, version_here, kind_of, kind_inside, kind_here, val_inside, val_here, vals_here, ava_inside, ava_here, avas_here, attr_inside, attr_here, attrs_here, mod_inside, mod_here, add_inside, mods_inside, ren_inside, del_inside, is_body_tag, body_inside, body_here, row_inside, row_at};

use crate::cursor::Cursor;
use crate::fault::{RowFault, RowWhy};
use crate::key::csn_of_key;
use repl_data::{
    Attr, AttrKey, AttrList, Ava, AvaList, Body, Bytes, Change, Csn, Mod, ModKind, ModList, Rdn,
    Uid, Val, ValList,
};
use std::alloc::Global;

#[tactic(auto, unfolding(crate::specs::Place::exact))]
fn text<'a>(alloc: Global, p: Cursor<'a>) -> Result<(Bytes, Cursor<'a>), RowFault>
    ensures { Gives with_place result (text (place_of p.entry)) }
{
    let (inside, rest) = p.open_exact(0x04)?;
    let bytes = Bytes::from_slice(alloc, inside.bytes)?;
    Ok((bytes, rest))
}

#[tactic(auto, unfolding(crate::specs::Grammar::csn_inside))]
fn csn_inside(p: Cursor) -> Result<Csn, RowFault>
    ensures { Gives (λ c. c) result (csn_inside (place_of p.entry)) }
{
    match csn_of_key(p.bytes) {
        Some(csn) => Ok(csn),
        None => Err(RowFault::Bad {
            place: p.start,
            why: RowWhy::Shape,
        }),
    }
}

#[tactic(auto, unfolding(crate::specs::Place::exact))]
fn csn(p: Cursor<'_>) -> Result<(Csn, Cursor<'_>), RowFault>
    ensures { Gives with_place result (csn_here (place_of p.entry)) }
{
    let (inside, rest) = p.open_exact(0x04)?;
    Ok((csn_inside(inside)?, rest))
}

/// The byte of an integer that has no more than one.
fn one_byte(p: Cursor) -> Result<u8, RowFault>
    ensures { Gives (λ n. n) result (one_byte p.entry.start p.entry.bytes.now) }
{
    match p.bytes {
        [b] => Ok(*b),
        _ => Err(RowFault::Bad {
            place: p.start,
            why: RowWhy::Shape,
        }),
    }
}

#[tactic(auto, unfolding(crate::specs::Grammar::version_inside))]
fn version_inside(p: Cursor) -> Result<(), RowFault>
    ensures { Gives (λ u. u) result (version_inside (place_of p.entry)) }
{
    if one_byte(p)? == 1 {
        Ok(())
    } else {
        Err(RowFault::Bad {
            place: p.start,
            why: RowWhy::Version,
        })
    }
}

#[tactic(auto, unfolding(crate::specs::Grammar::kind_inside))]
fn kind_inside(p: Cursor) -> Result<ModKind, RowFault>
    ensures { Gives (λ k. k) result (kind_inside (place_of p.entry)) }
{
    match one_byte(p)? {
        0 => Ok(ModKind::Add),
        1 => Ok(ModKind::Delete),
        2 => Ok(ModKind::Replace),
        _ => Err(RowFault::Bad {
            place: p.start,
            why: RowWhy::Shape,
        }),
    }
}

#[tactic(auto, unfolding(crate::specs::Grammar::val_inside))]
fn val_inside(alloc: Global, p: Cursor) -> Result<Val, RowFault>
    ensures { Gives (λ v. v) result (val_inside (place_of p.entry)) }
{
    let (key, rest) = text(alloc, p)?;
    let (spelled, rest) = text(alloc, rest)?;
    rest.ended()?;
    Ok(Val { key, spelled })
}

#[tactic(auto, unfolding(crate::specs::Place::exact))]
fn val<'a>(alloc: Global, p: Cursor<'a>) -> Result<(Val, Cursor<'a>), RowFault>
    ensures { Gives with_place result (val_here (place_of p.entry)) }
{
    let (inside, rest) = p.open_exact(0x30)?;
    Ok((val_inside(alloc, inside)?, rest))
}

fn many_vals(alloc: Global, p: Cursor) -> Result<ValList, RowFault>
    ensures { Gives (λ xs. xs) result (many val_here (place_of p.entry)) }
{
    let mut all = ValList::new(alloc);
    let mut here = p;
    for _ in 0..p.bytes.len() {
        if here.bytes.len() == 0 {
            return Ok(all);
        }
        let (one, rest) = val(alloc, here)?;
        all.push(one)?;
        here = rest;
    }
    Ok(all)
}

#[tactic(auto, unfolding(crate::specs::Place::exact))]
fn vals<'a>(alloc: Global, p: Cursor<'a>) -> Result<(ValList, Cursor<'a>), RowFault>
    ensures { Gives with_place result (vals_here (place_of p.entry)) }
{
    let (inside, rest) = p.open_exact(0x30)?;
    Ok((many_vals(alloc, inside)?, rest))
}

#[tactic(auto, unfolding(crate::specs::Grammar::ava_inside))]
fn ava_inside(alloc: Global, p: Cursor) -> Result<Ava, RowFault>
    ensures { Gives (λ a. a) result (ava_inside (place_of p.entry)) }
{
    let (name, rest) = text(alloc, p)?;
    let (key, rest) = text(alloc, rest)?;
    let (spelled, rest) = text(alloc, rest)?;
    rest.ended()?;
    Ok(Ava {
        attr: AttrKey { name },
        val: Val { key, spelled },
    })
}

#[tactic(auto, unfolding(crate::specs::Place::exact))]
fn ava<'a>(alloc: Global, p: Cursor<'a>) -> Result<(Ava, Cursor<'a>), RowFault>
    ensures { Gives with_place result (ava_here (place_of p.entry)) }
{
    let (inside, rest) = p.open_exact(0x30)?;
    Ok((ava_inside(alloc, inside)?, rest))
}

fn many_avas(alloc: Global, p: Cursor) -> Result<AvaList, RowFault>
    ensures { Gives (λ xs. xs) result (many ava_here (place_of p.entry)) }
{
    let mut all = AvaList::new(alloc);
    let mut here = p;
    for _ in 0..p.bytes.len() {
        if here.bytes.len() == 0 {
            return Ok(all);
        }
        let (one, rest) = ava(alloc, here)?;
        all.push(one)?;
        here = rest;
    }
    Ok(all)
}

#[tactic(auto, unfolding(crate::specs::Place::exact))]
fn avas<'a>(alloc: Global, p: Cursor<'a>) -> Result<(AvaList, Cursor<'a>), RowFault>
    ensures { Gives with_place result (avas_here (place_of p.entry)) }
{
    let (inside, rest) = p.open_exact(0x30)?;
    Ok((many_avas(alloc, inside)?, rest))
}

#[tactic(auto, unfolding(crate::specs::Grammar::attr_inside))]
fn attr_inside(alloc: Global, p: Cursor) -> Result<Attr, RowFault>
    ensures { Gives (λ a. a) result (attr_inside (place_of p.entry)) }
{
    let (name, rest) = text(alloc, p)?;
    let (vals, rest) = vals(alloc, rest)?;
    rest.ended()?;
    Ok(Attr {
        attr: AttrKey { name },
        vals,
    })
}

#[tactic(auto, unfolding(crate::specs::Place::exact))]
fn attr<'a>(alloc: Global, p: Cursor<'a>) -> Result<(Attr, Cursor<'a>), RowFault>
    ensures { Gives with_place result (attr_here (place_of p.entry)) }
{
    let (inside, rest) = p.open_exact(0x30)?;
    Ok((attr_inside(alloc, inside)?, rest))
}

fn many_attrs(alloc: Global, p: Cursor) -> Result<AttrList, RowFault>
    ensures { Gives (λ xs. xs) result (many attr_here (place_of p.entry)) }
{
    let mut all = AttrList::new(alloc);
    let mut here = p;
    for _ in 0..p.bytes.len() {
        if here.bytes.len() == 0 {
            return Ok(all);
        }
        let (one, rest) = attr(alloc, here)?;
        all.push(one)?;
        here = rest;
    }
    Ok(all)
}

#[tactic(auto, unfolding(crate::specs::Place::exact))]
fn attrs<'a>(alloc: Global, p: Cursor<'a>) -> Result<(AttrList, Cursor<'a>), RowFault>
    ensures { Gives with_place result (attrs_here (place_of p.entry)) }
{
    let (inside, rest) = p.open_exact(0x30)?;
    Ok((many_attrs(alloc, inside)?, rest))
}

#[tactic(auto, unfolding(crate::specs::Place::exact))]
fn kind(p: Cursor<'_>) -> Result<(ModKind, Cursor<'_>), RowFault>
    ensures { Gives with_place result (kind_here (place_of p.entry)) }
{
    let (inside, rest) = p.open_exact(0x02)?;
    Ok((kind_inside(inside)?, rest))
}

#[tactic(auto, unfolding(crate::specs::Grammar::mod_inside))]
fn mod_inside(alloc: Global, p: Cursor) -> Result<Mod, RowFault>
    ensures { Gives (λ m. m) result (mod_inside (place_of p.entry)) }
{
    let (kind, rest) = kind(p)?;
    let (name, rest) = text(alloc, rest)?;
    let (vals, rest) = vals(alloc, rest)?;
    rest.ended()?;
    Ok(Mod {
        kind,
        attr: AttrKey { name },
        vals,
    })
}

#[tactic(auto, unfolding(crate::specs::Place::exact))]
fn one_mod<'a>(alloc: Global, p: Cursor<'a>) -> Result<(Mod, Cursor<'a>), RowFault>
    ensures { Gives with_place result (mod_here (place_of p.entry)) }
{
    let (inside, rest) = p.open_exact(0x30)?;
    Ok((mod_inside(alloc, inside)?, rest))
}

fn many_mods(alloc: Global, p: Cursor) -> Result<ModList, RowFault>
    ensures { Gives (λ xs. xs) result (many mod_here (place_of p.entry)) }
{
    let mut all = ModList::new(alloc);
    let mut here = p;
    for _ in 0..p.bytes.len() {
        if here.bytes.len() == 0 {
            return Ok(all);
        }
        let (one, rest) = one_mod(alloc, here)?;
        all.push(one)?;
        here = rest;
    }
    Ok(all)
}

#[tactic(auto, unfolding(crate::specs::Grammar::add_inside))]
fn add_inside(alloc: Global, p: Cursor) -> Result<Body, RowFault>
    ensures { Gives (λ b. b) result (add_inside (place_of p.entry)) }
{
    let (parent, rest) = csn(p)?;
    let (avas, rest) = avas(alloc, rest)?;
    let (attrs, rest) = attrs(alloc, rest)?;
    rest.ended()?;
    Ok(Body::Add {
        parent: Uid { csn: parent },
        rdn: Rdn { avas },
        attrs,
    })
}

#[tactic(auto, unfolding(crate::specs::Grammar::mods_inside))]
fn mods_inside(alloc: Global, p: Cursor) -> Result<Body, RowFault>
    ensures { Gives (λ b. b) result (mods_inside (place_of p.entry)) }
{
    let mods = many_mods(alloc, p)?;
    Ok(Body::Mod { mods })
}

#[tactic(auto, unfolding(crate::specs::Grammar::ren_inside))]
fn ren_inside(alloc: Global, p: Cursor) -> Result<Body, RowFault>
    ensures { Gives (λ b. b) result (ren_inside (place_of p.entry)) }
{
    let (parts, rest) = avas(alloc, p)?;
    let (dropped, rest) = avas(alloc, rest)?;
    rest.ended()?;
    Ok(Body::Ren {
        rdn: Rdn { avas: parts },
        dropped,
    })
}

#[tactic(auto, unfolding(crate::specs::Grammar::del_inside))]
fn del_inside(p: Cursor) -> Result<Body, RowFault>
    ensures { Gives (λ b. b) result (del_inside (place_of p.entry)) }
{
    if p.bytes.len() == 0 {
        Ok(Body::Del)
    } else {
        Err(RowFault::Bad {
            place: p.start,
            why: RowWhy::Shape,
        })
    }
}

#[tactic(auto, unfolding(crate::specs::Grammar::body_inside))]
fn body_inside(alloc: Global, tag: u8, p: Cursor) -> Result<Body, RowFault>
    ensures { Gives (λ b. b) result (body_inside tag (place_of p.entry)) }
{
    match tag {
        0xa0 => add_inside(alloc, p),
        0xa1 => mods_inside(alloc, p),
        0xa2 => ren_inside(alloc, p),
        _ => del_inside(p),
    }
}

fn is_body_tag(tag: u8) -> bool
    ensures { result ≡ is_body_tag tag }
{
    matches!(tag, 0xa0 | 0xa1 | 0xa2 | 0x83)
}

#[tactic(auto, unfolding(crate::specs::Grammar::body_here))]
fn body<'a>(alloc: Global, p: Cursor<'a>) -> Result<(Body, Cursor<'a>), RowFault>
    ensures { Gives with_place result (body_here (place_of p.entry)) }
{
    let tag = p.tag()?;
    if !is_body_tag(tag) {
        return Err(RowFault::Bad {
            place: p.at,
            why: RowWhy::Shape,
        });
    }
    let (inside, rest) = p.open_exact(tag)?;
    Ok((body_inside(alloc, tag, inside)?, rest))
}

#[tactic(auto, unfolding(crate::specs::Place::exact))]
fn version(p: Cursor<'_>) -> Result<((), Cursor<'_>), RowFault>
    ensures { Gives with_place result (version_here (place_of p.entry)) }
{
    let (inside, rest) = p.open_exact(0x02)?;
    Ok((version_inside(inside)?, rest))
}

#[tactic(auto, unfolding(crate::specs::Grammar::row_inside))]
fn row_inside(alloc: Global, p: Cursor) -> Result<Change, RowFault>
    ensures { Gives (λ c. c) result (row_inside (place_of p.entry)) }
{
    let (_one, rest) = version(p)?;
    let (made, rest) = csn(rest)?;
    let (target, rest) = csn(rest)?;
    let (body, rest) = body(alloc, rest)?;
    rest.ended()?;
    Ok(Change {
        csn: made,
        target: Uid { csn: target },
        body,
    })
}

#[tactic(auto, unfolding(crate::specs::Grammar::row_at, crate::specs::Place::exact))]
fn find_change(alloc: Global, bytes: &[u8]) -> Result<Change, RowFault>
    ensures { Gives (λ c. c) result (row_at bytes.now) }
{
    let (inside, rest) = Cursor {
        start: 0,
        at: 0,
        bytes,
    }
    .open_exact(0x30)?;
    let change = row_inside(alloc, inside)?;
    rest.ended()?;
    Ok(change)
}

/// The change whose row these bytes are.
///
/// A row is taken in the form of `write_change` alone, which is its one spelling. `Bad` tells the first
/// fault, read element by element from the front: an element that passes the end of the one around it
/// (`Ber`), another tag, a length or an integer of more bytes than needed, a content of another size or
/// range, an element that ends before its last required one, and any byte after the last one (`Shape`),
/// or another version than 1 (`Version`). A place counts from the first byte of the row. Whether
/// `check` would accept the change is not looked at.
///
/// In one pass over the bytes, in time and memory proportional to them.
pub fn read_change(alloc: Global, bytes: &[u8]) -> Result<Change, RowFault>
    // What is read is the change whose row the bytes are.
    ensures found { IfOk result (λ c. bytes.now ≡ row_of c) }

    // The row of each change is read, unless memory ran out.
    ensures only { (c : Change) → IsChangeInRange c → bytes.now ≡ row_of c
        → Gives (λ d. d) result (Ok c) }

    // Which answer it is, with the first fault, unless memory ran out.
    ensures exact { Gives (λ c. c) result (row_at bytes.now) }
{
    find_change(alloc, bytes)
}
