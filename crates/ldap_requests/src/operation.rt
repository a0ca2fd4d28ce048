//! The operations, one function each.

ghost use Rattle.std.specs.Prelude.{◌≡◌};
ghost use Rattle.ber_core.specs.Cursor.{Gives, window, with_window};
ghost use Rattle.ldap_requests.specs.Grammar.{text, count, auth, sasl, bind_inside, unbind_inside, delete_inside, abandon_inside, add_inside, search_inside, modification_inside, modification, modify_inside, rename_inside, compare_inside, extended_inside, is_op_tag, op_inside, operation};
ghost use Rattle.ber_core.specs.Window.{element, many};

use crate::filter::{FILTER_DEPTH, filter};
use crate::parts::{assertion, attribute, attributes, count, skip, texts};
use ber_core::{Cursor, NotLdapWhy, ReadFault, ended, optional_text, text};
use ldap_types::{Auth, BindRequest, Bytes, BytesList, Op, RawMod, RawModList, SearchRequest};
use std::alloc::Global;

#[tactic(auto, unfolding(crate::specs::Grammar::sasl))]
fn sasl(alloc: Global, w: Cursor) -> Result<(), ReadFault>
    ensures { Gives (λ u. u) result (sasl (window w.entry)) }
{
    let (_, rest) = text(alloc, w)?;
    let (_, rest) = optional_text(alloc, 0x04, rest)?;
    ended(rest)
}

#[tactic(auto, unfolding(crate::specs::Grammar::auth, ber_core::specs::Window::element))]
fn simple(alloc: Global, w: Cursor) -> Result<(Auth, Cursor), ReadFault>
    ensures { Gives with_window result (auth (window w.entry)) }
{
    let tag = w.tag()?;
    if tag == 0x80 {
        let (inside, rest) = w.open_as(0x80)?;
        let password = Bytes::from_slice(alloc, inside.octets()?)?;
        Ok((Auth::Simple(password), rest))
    } else if tag == 0xa3 {
        let (inside, rest) = w.open_as(0xa3)?;
        sasl(alloc, inside)?;
        Ok((Auth::Sasl, rest))
    } else {
        Err(ReadFault::NotLdap {
            place: w.at,
            why: NotLdapWhy::Shape,
        })
    }
}

#[tactic(auto, unfolding(crate::specs::Grammar::bind_inside))]
fn bind_inside(alloc: Global, w: Cursor) -> Result<Op, ReadFault>
    ensures { Gives (λ o. o) result (bind_inside (window w.entry)) }
{
    let (version, rest) = w.int_as(0x02)?;
    let (name, rest) = rest.octets_as(0x04)?;
    let (auth, rest) = simple(alloc, rest)?;
    skip(rest)?;
    let name = Bytes::from_slice(alloc, name)?;
    Ok(Op::Bind(BindRequest {
        version,
        name,
        auth,
    }))
}

#[tactic(auto, unfolding(crate::specs::Grammar::unbind_inside))]
fn unbind_inside(w: Cursor) -> Result<Op, ReadFault>
    ensures { Gives (λ o. o) result (unbind_inside (window w.entry)) }
{
    if w.left == 0 {
        Ok(Op::Unbind)
    } else {
        Err(ReadFault::NotLdap {
            place: w.start,
            why: NotLdapWhy::Shape,
        })
    }
}

/// The most entries, or the most seconds, that a search is to take (RFC 4511, section 4.5.1).
#[tactic(auto, unfolding(ber_core::specs::Window::element))]
fn limit(w: Cursor<'_>) -> Result<(u32, Cursor<'_>), ReadFault>
    ensures { Gives with_window result (element 0x02 count (window w.entry)) }
{
    let (inside, rest) = w.open_as(0x02)?;
    Ok((count(inside)?, rest))
}

/// The attributes that a search asks for (RFC 4511, section 4.5.1.8).
#[tactic(auto, unfolding(ber_core::specs::Window::element))]
fn selection(alloc: Global, w: Cursor<'_>) -> Result<(BytesList, Cursor<'_>), ReadFault>
    ensures { Gives with_window result (element 0x30 (many text) (window w.entry)) }
{
    let (inside, rest) = w.open_as(0x30)?;
    Ok((texts(alloc, inside)?, rest))
}

#[tactic(auto, unfolding(crate::specs::Grammar::search_inside))]
fn search_inside(alloc: Global, w: Cursor) -> Result<Op, ReadFault>
    ensures { Gives (λ o. o) result (search_inside (window w.entry)) }
{
    let (base, rest) = w.octets_as(0x04)?;
    let (scope, rest) = rest.int_as(0x0a)?;
    let (deref, rest) = rest.int_as(0x0a)?;
    let (size_limit, rest) = limit(rest)?;
    let (time_limit, rest) = limit(rest)?;
    let (types_only, rest) = rest.boolean_here()?;
    let (filter, rest) = filter(alloc, FILTER_DEPTH, rest)?;
    let (attrs, rest) = selection(alloc, rest)?;
    skip(rest)?;
    let base = Bytes::from_slice(alloc, base)?;
    Ok(Op::Search(SearchRequest {
        base,
        scope,
        deref,
        size_limit,
        time_limit,
        types_only,
        filter,
        attrs,
    }))
}

#[tactic(auto, unfolding(crate::specs::Grammar::modification_inside))]
fn modification_inside(alloc: Global, w: Cursor) -> Result<RawMod, ReadFault>
    ensures { Gives (λ m. m) result (modification_inside (window w.entry)) }
{
    let (kind, rest) = w.int_as(0x0a)?;
    let (attr, rest) = attribute(alloc, rest)?;
    ended(rest)?;
    Ok(RawMod {
        kind,
        name: attr.name,
        vals: attr.vals,
    })
}

#[tactic(auto, unfolding(ber_core::specs::Window::element))]
fn modification(alloc: Global, w: Cursor) -> Result<(RawMod, Cursor), ReadFault>
    ensures { Gives with_window result (modification (window w.entry)) }
{
    let (inside, rest) = w.open_as(0x30)?;
    Ok((modification_inside(alloc, inside)?, rest))
}

fn modifications(alloc: Global, w: Cursor) -> Result<RawModList, ReadFault>
    ensures { Gives (λ xs. xs) result (many modification (window w.entry)) }
{
    let mut all = RawModList::new(alloc);
    let mut here = w;
    for _ in 0..w.left {
        if here.left == 0 {
            return Ok(all);
        }
        let (one, rest) = modification(alloc, here)?;
        all.push(one)?;
        here = rest;
    }
    Ok(all)
}

#[tactic(auto, unfolding(crate::specs::Grammar::modify_inside, ber_core::specs::Window::element))]
fn modify_inside(alloc: Global, w: Cursor) -> Result<Op, ReadFault>
    ensures { Gives (λ o. o) result (modify_inside (window w.entry)) }
{
    let (object, rest) = text(alloc, w)?;
    let (inside, rest) = rest.open_as(0x30)?;
    let mods = modifications(alloc, inside)?;
    skip(rest)?;
    Ok(Op::Modify { object, mods })
}

#[tactic(auto, unfolding(crate::specs::Grammar::add_inside, ber_core::specs::Window::element))]
fn add_inside(alloc: Global, w: Cursor) -> Result<Op, ReadFault>
    ensures { Gives (λ o. o) result (add_inside (window w.entry)) }
{
    let (object, rest) = text(alloc, w)?;
    let (inside, rest) = rest.open_as(0x30)?;
    let attrs = attributes(alloc, inside)?;
    skip(rest)?;
    Ok(Op::Add { object, attrs })
}

#[tactic(auto, unfolding(crate::specs::Grammar::delete_inside))]
fn delete_inside(alloc: Global, w: Cursor) -> Result<Op, ReadFault>
    ensures { Gives (λ o. o) result (delete_inside (window w.entry)) }
{
    let object = Bytes::from_slice(alloc, w.octets()?)?;
    Ok(Op::Delete { object })
}

#[tactic(auto, unfolding(crate::specs::Grammar::rename_inside))]
fn rename_inside(alloc: Global, w: Cursor) -> Result<Op, ReadFault>
    ensures { Gives (λ o. o) result (rename_inside (window w.entry)) }
{
    let (object, rest) = w.octets_as(0x04)?;
    let (new_rdn, rest) = rest.octets_as(0x04)?;
    let (delete_old, rest) = rest.boolean_here()?;
    let (new_superior, rest) = optional_text(alloc, 0x80, rest)?;
    skip(rest)?;
    let object = Bytes::from_slice(alloc, object)?;
    let new_rdn = Bytes::from_slice(alloc, new_rdn)?;
    Ok(Op::Rename {
        object,
        new_rdn,
        delete_old,
        new_superior,
    })
}

#[tactic(auto, unfolding(crate::specs::Grammar::compare_inside, ber_core::specs::Window::element))]
fn compare_inside(alloc: Global, w: Cursor) -> Result<Op, ReadFault>
    ensures { Gives (λ o. o) result (compare_inside (window w.entry)) }
{
    let (object, rest) = text(alloc, w)?;
    let (inside, rest) = rest.open_as(0x30)?;
    let (name, value) = assertion(alloc, inside)?;
    skip(rest)?;
    Ok(Op::Compare {
        object,
        name,
        value,
    })
}

#[tactic(auto, unfolding(crate::specs::Grammar::abandon_inside))]
fn abandon_inside(w: Cursor) -> Result<Op, ReadFault>
    ensures { Gives (λ o. o) result (abandon_inside (window w.entry)) }
{
    Ok(Op::Abandon { id: count(w)? })
}

#[tactic(auto, unfolding(crate::specs::Grammar::extended_inside, ber_core::specs::Window::element))]
fn extended_inside(alloc: Global, w: Cursor) -> Result<Op, ReadFault>
    ensures { Gives (λ o. o) result (extended_inside (window w.entry)) }
{
    let (inside, rest) = w.open_as(0x80)?;
    let oid = Bytes::from_slice(alloc, inside.octets()?)?;
    let (value, rest) = optional_text(alloc, 0x81, rest)?;
    skip(rest)?;
    Ok(Op::Extended { oid, value })
}

fn is_op_tag(tag: u8) -> bool
    ensures { result ≡ is_op_tag tag }
{
    tag == 0x60
        || tag == 0x42
        || tag == 0x63
        || tag == 0x66
        || tag == 0x68
        || tag == 0x4a
        || tag == 0x6c
        || tag == 0x6e
        || tag == 0x50
        || tag == 0x77
}

#[tactic(auto, unfolding(crate::specs::Grammar::op_inside))]
fn op_inside(alloc: Global, tag: u8, w: Cursor) -> Result<Op, ReadFault>
    ensures { Gives (λ o. o) result (op_inside tag (window w.entry)) }
{
    if tag == 0x60 {
        bind_inside(alloc, w)
    } else if tag == 0x42 {
        unbind_inside(w)
    } else if tag == 0x63 {
        search_inside(alloc, w)
    } else if tag == 0x66 {
        modify_inside(alloc, w)
    } else if tag == 0x68 {
        add_inside(alloc, w)
    } else if tag == 0x4a {
        delete_inside(alloc, w)
    } else if tag == 0x6c {
        rename_inside(alloc, w)
    } else if tag == 0x6e {
        compare_inside(alloc, w)
    } else if tag == 0x50 {
        abandon_inside(w)
    } else {
        extended_inside(alloc, w)
    }
}

#[tactic(auto, unfolding(crate::specs::Grammar::operation))]
pub(crate) fn operation(alloc: Global, w: Cursor) -> Result<(Op, Cursor), ReadFault>
    ensures { Gives with_window result (operation (window w.entry)) }
{
    let tag = w.tag()?;
    if !is_op_tag(tag) {
        return Err(ReadFault::NotLdap {
            place: w.at,
            why: NotLdapWhy::Op,
        });
    }
    let (inside, rest) = w.open()?;
    let op = op_inside(alloc, tag, inside)?;
    Ok((op, rest))
}
