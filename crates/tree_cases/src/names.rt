//! Those that contend for one name, one after the other.

use case_changes::{next_csn, next_uid};
use case_lines::{CaseFault, Fields, or_memory};
use case_views::tell_optional_uid;
use urp_names::Contenders;

/// Puts a contender, live or glue, or takes one, and tells who has the name then.
pub fn answer(
    who: &mut Contenders,
    subject: &str,
    fields: &mut Fields<'_>,
    told: &mut String,
) -> Result<(), CaseFault> {
    match subject {
        "live" => put(who, false, fields)?,
        "glue" => put(who, true, fields)?,
        "take" => who.take(next_uid(fields)?),
        _ => return Err(CaseFault::Subject),
    }
    tell_optional_uid(told, who.holder())
}

fn put(who: &mut Contenders, glue: bool, fields: &mut Fields<'_>) -> Result<(), CaseFault> {
    let id = next_uid(fields)?;
    let named = next_csn(fields)?;
    or_memory(who.put(id, glue, named))
}
