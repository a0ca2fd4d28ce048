//! Filters in the form of RFC 4515, with each name and value as a text of its own.

use crate::parts::{tell, tell_each, tell_optional};
use case_lines::CaseFault;
use ldap_types::{Bytes, Filter};

/// Appends the filter, of so many levels at most.
pub fn tell_filter(told: &mut String, filter: &Filter, levels: u32) -> Result<(), CaseFault> {
    if levels == 0 {
        return Err(CaseFault::Argument);
    }
    match filter {
        Filter::And(all) => {
            told.push_str(" (&")?;
            for one in all.as_slice() {
                tell_filter(told, one, levels - 1)?;
            }
        }
        Filter::Or(all) => {
            told.push_str(" (|")?;
            for one in all.as_slice() {
                tell_filter(told, one, levels - 1)?;
            }
        }
        Filter::Not(one) => {
            told.push_str(" (!")?;
            tell_filter(told, one.get(), levels - 1)?;
        }
        _ => {
            told.push_str(" (")?;
            tell_simple(told, filter)?;
        }
    }
    told.push_str(" )")?;
    Ok(())
}

/// Appends a filter that has none inside.
fn tell_simple(told: &mut String, filter: &Filter) -> Result<(), CaseFault> {
    match filter {
        Filter::Equality { name, value } => tell_assertion(told, "=", name, value),
        Filter::AtLeast { name, value } => tell_assertion(told, ">=", name, value),
        Filter::AtMost { name, value } => tell_assertion(told, "<=", name, value),
        Filter::Approximate { name, value } => tell_assertion(told, "~=", name, value),
        Filter::Present { name } => {
            told.push_str("*")?;
            tell(told, name)
        }
        Filter::Substrings {
            name,
            first,
            middle,
            last,
        } => {
            told.push_str("substrings")?;
            tell(told, name)?;
            tell_optional(told, first)?;
            tell_each(told, middle)?;
            tell_optional(told, last)
        }
        _ => {
            told.push_str("extensible")?;
            Ok(())
        }
    }
}

fn tell_assertion(
    told: &mut String,
    sign: &str,
    name: &Bytes,
    value: &Bytes,
) -> Result<(), CaseFault> {
    told.push_str(sign)?;
    tell(told, name)?;
    tell(told, value)
}
