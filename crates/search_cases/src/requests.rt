//! Searches as words: the base, the scope, the size limit, `values` or `types`, the attributes with a bar between each
//! two or a dash for none, and the filter.

use crate::filters::{next_bytes, next_filter};
use case_lines::{CaseFault, Fields, or_memory};
use ldap_types::{Bytes, BytesList, SearchRequest};
use std::alloc::Global;

/// The bytes of all words that are left.
pub fn rest(alloc: Global, fields: &mut Fields<'_>) -> Result<BytesList, CaseFault> {
    let mut all = BytesList::new(alloc);
    for _ in 0..u64::MAX {
        if fields.is_empty() {
            break;
        }
        or_memory(all.push(next_bytes(alloc, fields)?))?;
    }
    Ok(all)
}

fn next_types_only(fields: &mut Fields<'_>) -> Result<bool, CaseFault> {
    match fields.word()? {
        "types" => Ok(true),
        "values" => Ok(false),
        _ => Err(CaseFault::Argument),
    }
}

fn next_names(alloc: Global, fields: &mut Fields<'_>) -> Result<BytesList, CaseFault> {
    let mut names = BytesList::new(alloc);
    let mut ahead = *fields;
    if ahead.word()? == "-" {
        *fields = ahead;
        return Ok(names);
    }
    let text = fields.bytes(alloc)?;
    for part in text.split(|byte| *byte == b'|') {
        or_memory(names.push(or_memory(Bytes::from_slice(alloc, part))?))?;
    }
    Ok(names)
}

fn next_small(fields: &mut Fields<'_>) -> Result<u32, CaseFault> {
    match u32::try_from(fields.number()?) {
        Ok(number) => Ok(number),
        Err(_) => Err(CaseFault::Argument),
    }
}

/// The search of the next words.
pub fn next_search(alloc: Global, fields: &mut Fields<'_>) -> Result<SearchRequest, CaseFault> {
    let base = next_bytes(alloc, fields)?;
    let scope = i64::from(next_small(fields)?);
    let size_limit = next_small(fields)?;
    let types_only = next_types_only(fields)?;
    let attrs = next_names(alloc, fields)?;
    let filter = next_filter(alloc, fields)?;
    Ok(SearchRequest {
        base,
        scope,
        deref: 0,
        size_limit,
        time_limit: 0,
        types_only,
        filter,
        attrs,
    })
}
