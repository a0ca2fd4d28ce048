//! Filters of searches.

ghost use Rattle.std.specs.Prelude.{◌≡◌};
ghost use Rattle.ldap_types.specs.declared.request.Filter.TheVariants as filter;
ghost use Rattle.ber_core.specs.Cursor.{Gives, window, with_window};
ghost use Rattle.ldap_requests.specs.Grammar.{some_piece, pieces, substrings_inside, simple_inside, filter_inside, filter_at, is_filter_tag};
ghost use Rattle.ber_core.specs.Window.{run, many, octets};

use crate::parts::assertion;
use ber_core::{Cursor, NotLdapWhy, ReadFault, ended, optional_text, text};
use ldap_types::{Boxed, Bytes, BytesList, Filter, FilterList};
use std::alloc::Global;

/// How many filters are inside each other at most, the outermost included.
pub const FILTER_DEPTH: u32 = 50;

fn is_filter_tag(tag: u8) -> bool
    ensures { result ≡ is_filter_tag tag }
{
    (0xa0 <= tag && tag <= 0xa6) || tag == 0x87 || tag == 0xa8 || tag == 0xa9
}

fn run(alloc: Global, tag: u8, w: Cursor) -> Result<(BytesList, Cursor), ReadFault>
    ensures { Gives with_window result (run tag octets (window w.entry)) }
{
    let mut all = BytesList::new(alloc);
    let mut here = w;
    for _ in 0..w.left {
        let (one, rest) = optional_text(alloc, tag, here)?;
        match one {
            None => return Ok((all, rest)),
            Some(bytes) => all.push(bytes)?,
        }
        here = rest;
    }
    Ok((all, here))
}

/// The filter of these pieces, of which there is one at least.
fn some_piece(
    start: usize,
    name: Bytes,
    first: Option<Bytes>,
    middle: BytesList,
    last: Option<Bytes>,
) -> Result<Filter, ReadFault>
    ensures { Gives (λ f. f) result (some_piece start (filter.Substrings name first middle last)) }
{
    if first.is_none() && middle.is_empty() && last.is_none() {
        return Err(ReadFault::NotLdap {
            place: start,
            why: NotLdapWhy::Shape,
        });
    }
    Ok(Filter::Substrings {
        name,
        first,
        middle,
        last,
    })
}

#[tactic(auto, unfolding(crate::specs::Grammar::pieces))]
fn pieces(alloc: Global, name: Bytes, w: Cursor) -> Result<Filter, ReadFault>
    ensures { Gives (λ f. f) result (pieces name (window w.entry)) }
{
    let (first, rest) = optional_text(alloc, 0x80, w)?;
    let (middle, rest) = run(alloc, 0x81, rest)?;
    let (last, rest) = optional_text(alloc, 0x82, rest)?;
    ended(rest)?;
    some_piece(w.start, name, first, middle, last)
}

#[tactic(auto, unfolding(crate::specs::Grammar::substrings_inside, ber_core::specs::Window::element))]
fn substrings_inside(alloc: Global, w: Cursor) -> Result<Filter, ReadFault>
    ensures { Gives (λ f. f) result (substrings_inside (window w.entry)) }
{
    let (name, rest) = text(alloc, w)?;
    let (inside, rest) = rest.open_as(0x30)?;
    let filter = pieces(alloc, name, inside)?;
    ended(rest)?;
    Ok(filter)
}

#[tactic(auto, unfolding(crate::specs::Grammar::simple_inside))]
fn simple_inside(alloc: Global, tag: u8, w: Cursor) -> Result<Filter, ReadFault>
    ensures { Gives (λ f. f) result (simple_inside tag (window w.entry)) }
{
    if tag == 0xa3 {
        let (name, value) = assertion(alloc, w)?;
        Ok(Filter::Equality { name, value })
    } else if tag == 0xa4 {
        substrings_inside(alloc, w)
    } else if tag == 0xa5 {
        let (name, value) = assertion(alloc, w)?;
        Ok(Filter::AtLeast { name, value })
    } else if tag == 0xa6 {
        let (name, value) = assertion(alloc, w)?;
        Ok(Filter::AtMost { name, value })
    } else if tag == 0x87 {
        let name = Bytes::from_slice(alloc, w.octets()?)?;
        Ok(Filter::Present { name })
    } else if tag == 0xa8 {
        let (name, value) = assertion(alloc, w)?;
        Ok(Filter::Approximate { name, value })
    } else {
        w.octets()?;
        Ok(Filter::Extensible)
    }
}

#[cycle(filter)]
#[tactic(auto, unfolding(crate::specs::Grammar::filter_at))]
pub(crate) fn filter(alloc: Global, levels: u32, w: Cursor) -> Result<(Filter, Cursor), ReadFault>
    ensures { Gives with_window result (filter_at levels (window w.entry)) }
{
    let tag = w.tag()?;
    if !is_filter_tag(tag) {
        return Err(ReadFault::NotLdap {
            place: w.at,
            why: NotLdapWhy::Shape,
        });
    }
    if levels == 0 {
        return Err(ReadFault::NotLdap {
            place: w.at,
            why: NotLdapWhy::Depth,
        });
    }
    let (inside, rest) = w.open()?;
    let filter = filter_inside(alloc, levels - 1, tag, inside)?;
    Ok((filter, rest))
}

#[cycle(filter)]
#[tactic(auto, unfolding(crate::specs::Grammar::filter_inside))]
fn filter_inside(alloc: Global, levels: u32, tag: u8, w: Cursor) -> Result<Filter, ReadFault>
    ensures { Gives (λ f. f) result (filter_inside (filter_at levels) tag (window w.entry)) }
{
    if tag == 0xa0 {
        Ok(Filter::And(filters(alloc, levels, w)?))
    } else if tag == 0xa1 {
        Ok(Filter::Or(filters(alloc, levels, w)?))
    } else if tag == 0xa2 {
        let (inner, rest) = filter(alloc, levels, w)?;
        ended(rest)?;
        Ok(Filter::Not(Boxed::new(alloc, inner)?))
    } else {
        simple_inside(alloc, tag, w)
    }
}

#[cycle(filter)]
fn filters(alloc: Global, levels: u32, w: Cursor) -> Result<FilterList, ReadFault>
    ensures { Gives (λ xs. xs) result (many (filter_at levels) (window w.entry)) }
{
    let mut all = FilterList::new(alloc);
    let mut here = w;
    for _ in 0..w.left {
        if here.left == 0 {
            return Ok(all);
        }
        let (one, rest) = filter(alloc, levels, here)?;
        all.push(one)?;
        here = rest;
    }
    Ok(all)
}
