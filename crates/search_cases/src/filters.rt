//! Filters as words: what they are, and then what is in them.
//!
//! `present NAME`, `eq NAME VALUE`, `ge`, `le` and `approx` likewise, `sub NAME FIRST MIDDLE LAST` with a bar between
//! each two middle pieces and a dash for what is not given, `ext`, `not FILTER`, `nots COUNT FILTER`, and `and` and
//! `or` with a count and so many filters.

use case_lines::{CaseFault, Fields, or_memory};
use ldap_types::{Boxed, Bytes, BytesList, Filter, FilterList};
use std::alloc::Global;

/// The bytes of the next word.
pub fn next_bytes(alloc: Global, fields: &mut Fields<'_>) -> Result<Bytes, CaseFault> {
    let bytes = fields.bytes(alloc)?;
    or_memory(Bytes::from_slice(alloc, bytes.as_slice()))
}

/// A name and a value.
fn next_pair(alloc: Global, fields: &mut Fields<'_>) -> Result<(Bytes, Bytes), CaseFault> {
    let name = next_bytes(alloc, fields)?;
    let value = next_bytes(alloc, fields)?;
    Ok((name, value))
}

/// The bytes of the next word, or none where it is a dash.
fn next_piece(alloc: Global, fields: &mut Fields<'_>) -> Result<Option<Bytes>, CaseFault> {
    let mut ahead = *fields;
    if ahead.word()? == "-" {
        *fields = ahead;
        return Ok(None);
    }
    Ok(Some(next_bytes(alloc, fields)?))
}

/// The pieces of the next word, with a bar between each two, or none where it is a dash.
fn next_pieces(alloc: Global, fields: &mut Fields<'_>) -> Result<BytesList, CaseFault> {
    let mut pieces = BytesList::new(alloc);
    if let Some(text) = next_piece(alloc, fields)? {
        for part in text.as_slice().split(|byte| *byte == b'|') {
            or_memory(pieces.push(or_memory(Bytes::from_slice(alloc, part))?))?;
        }
    }
    Ok(pieces)
}

fn next_substrings(alloc: Global, fields: &mut Fields<'_>) -> Result<Filter, CaseFault> {
    let name = next_bytes(alloc, fields)?;
    let first = next_piece(alloc, fields)?;
    let middle = next_pieces(alloc, fields)?;
    let last = next_piece(alloc, fields)?;
    Ok(Filter::Substrings {
        name,
        first,
        middle,
        last,
    })
}

fn negated(alloc: Global, filter: Filter) -> Result<Filter, CaseFault> {
    Ok(Filter::Not(or_memory(Boxed::new(alloc, filter))?))
}

/// The filter with so many `not` around it.
fn negated_often(alloc: Global, count: u64, filter: Filter) -> Result<Filter, CaseFault> {
    let mut all = filter;
    for _ in 0..count {
        all = negated(alloc, all)?;
    }
    Ok(all)
}

/// A filter with none inside.
fn simple(alloc: Global, kind: &str, fields: &mut Fields<'_>) -> Result<Filter, CaseFault> {
    match kind {
        "present" => Ok(Filter::Present {
            name: next_bytes(alloc, fields)?,
        }),
        "eq" => {
            let (name, value) = next_pair(alloc, fields)?;
            Ok(Filter::Equality { name, value })
        }
        "approx" => {
            let (name, value) = next_pair(alloc, fields)?;
            Ok(Filter::Approximate { name, value })
        }
        "ge" => {
            let (name, value) = next_pair(alloc, fields)?;
            Ok(Filter::AtLeast { name, value })
        }
        "le" => {
            let (name, value) = next_pair(alloc, fields)?;
            Ok(Filter::AtMost { name, value })
        }
        "sub" => next_substrings(alloc, fields),
        "ext" => Ok(Filter::Extensible),
        _ => Err(CaseFault::Argument),
    }
}

/// So many filters as the next word says.
#[cycle(filter)]
fn next_filters(
    alloc: Global,
    levels: u32,
    fields: &mut Fields<'_>,
) -> Result<FilterList, CaseFault> {
    let count = fields.number()?;
    let mut all = FilterList::new(alloc);
    for _ in 0..count {
        or_memory(all.push(filter_within(alloc, levels, fields)?))?;
    }
    Ok(all)
}

/// A filter of so many levels at most.
#[cycle(filter)]
fn filter_within(alloc: Global, levels: u32, fields: &mut Fields<'_>) -> Result<Filter, CaseFault> {
    if levels == 0 {
        return Err(CaseFault::Argument);
    }
    match fields.word()? {
        "and" => Ok(Filter::And(next_filters(alloc, levels - 1, fields)?)),
        "or" => Ok(Filter::Or(next_filters(alloc, levels - 1, fields)?)),
        "not" => {
            let inner = filter_within(alloc, levels - 1, fields)?;
            negated(alloc, inner)
        }
        "nots" => {
            let count = fields.number()?;
            let inner = filter_within(alloc, levels - 1, fields)?;
            negated_often(alloc, count, inner)
        }
        kind => simple(alloc, kind, fields),
    }
}

/// The filter of the next words.
pub fn next_filter(alloc: Global, fields: &mut Fields<'_>) -> Result<Filter, CaseFault> {
    filter_within(alloc, 60, fields)
}
