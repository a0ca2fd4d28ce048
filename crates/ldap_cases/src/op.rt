//! Operations as a line of text.

use crate::filter::tell_filter;
use crate::parts::{tell, tell_attributes, tell_each, tell_optional};
use case_lines::CaseFault;
use ldap_requests::FILTER_DEPTH;
use ldap_types::{Auth, BindRequest, Op, RawModList, SearchRequest};
use std::fmt::Write;

/// Appends the name of the operation and its fields.
pub fn tell_op(told: &mut String, op: &Op) -> Result<(), CaseFault> {
    told.push_str(name_of(op))?;
    match op {
        Op::Bind(bind) => tell_bind(told, bind),
        Op::Unbind => Ok(()),
        Op::Search(search) => tell_search(told, search),
        Op::Modify { object, mods } => {
            tell(told, object)?;
            tell_mods(told, mods)
        }
        Op::Add { object, attrs } => {
            tell(told, object)?;
            tell_attributes(told, attrs.as_slice())
        }
        _ => tell_short(told, op),
    }
}

/// The name of the operation.
fn name_of(op: &Op) -> &'static str {
    match op {
        Op::Bind(_) => "bind",
        Op::Unbind => "unbind",
        Op::Search(_) => "search",
        Op::Modify { .. } => "modify",
        Op::Add { .. } => "add",
        Op::Delete { .. } => "delete",
        Op::Rename { .. } => "rename",
        Op::Compare { .. } => "compare",
        Op::Abandon { .. } => "abandon",
        Op::Extended { .. } => "extended",
    }
}

/// Appends the fields of an operation that has no list inside.
fn tell_short(told: &mut String, op: &Op) -> Result<(), CaseFault> {
    match op {
        Op::Delete { object } => tell(told, object),
        Op::Rename {
            object,
            new_rdn,
            delete_old,
            new_superior,
        } => {
            tell(told, object)?;
            tell(told, new_rdn)?;
            write!(told, " {delete_old}")?;
            tell_optional(told, new_superior)
        }
        Op::Compare {
            object,
            name,
            value,
        } => {
            tell(told, object)?;
            tell(told, name)?;
            tell(told, value)
        }
        Op::Abandon { id } => {
            write!(told, " {id}")?;
            Ok(())
        }
        Op::Extended { oid, value } => {
            tell(told, oid)?;
            tell_optional(told, value)
        }
        _ => Ok(()),
    }
}

fn tell_bind(told: &mut String, bind: &BindRequest) -> Result<(), CaseFault> {
    let version = bind.version;
    write!(told, " {version}")?;
    tell(told, &bind.name)?;
    match &bind.auth {
        Auth::Simple(password) => {
            told.push_str(" simple")?;
            tell(told, password)
        }
        Auth::Sasl => {
            told.push_str(" sasl")?;
            Ok(())
        }
    }
}

fn tell_search(told: &mut String, search: &SearchRequest) -> Result<(), CaseFault> {
    tell(told, &search.base)?;
    let (scope, deref) = (search.scope, search.deref);
    let (size, time, types) = (search.size_limit, search.time_limit, search.types_only);
    write!(told, " {scope} {deref} {size} {time} {types}")?;
    tell_filter(told, &search.filter, FILTER_DEPTH)?;
    tell_each(told, &search.attrs)
}

fn tell_mods(told: &mut String, mods: &RawModList) -> Result<(), CaseFault> {
    for one in mods.as_slice() {
        let kind = one.kind;
        write!(told, " ( {kind}")?;
        tell(told, &one.name)?;
        tell_each(told, &one.vals)?;
        told.push_str(" )")?;
    }
    Ok(())
}
