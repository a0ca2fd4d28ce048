//! A node of a world.
//!
//! - `at R` goes to node R, and `clock R` does, too, and tells the time of the world.
//! - `empty_has N`: whether a world without nodes has a node N.
//! - `audit`: how many entries, changes and pending CSNs it has.
//! - Any other call is one of the node.

use crate::made::suffix;
use crate::node;
use crate::told::{tell_audit, tell_bool};
use case_lines::{CaseFault, Fields, or_memory};
use std::alloc::Global;
use std::fmt::Write;
use world_core::{AtNode, World};

fn next_number(fields: &mut Fields<'_>) -> Result<u16, CaseFault> {
    match u16::try_from(fields.number()?) {
        Ok(number) => Ok(number),
        Err(_) => Err(CaseFault::Argument),
    }
}

/// Node `n` of the world.
fn at_node(world: World, n: u16) -> Result<AtNode, CaseFault> {
    if world.has_node(n) {
        Ok(AtNode::new(world, n))
    } else {
        Err(CaseFault::Argument)
    }
}

/// A world of as many nodes as the next word writes, at the node of the word behind it.
pub fn next_world(alloc: Global, fields: &mut Fields<'_>) -> Result<AtNode, CaseFault> {
    let count = next_number(fields)?;
    let n = next_number(fields)?;
    if count > 8 {
        return Err(CaseFault::Argument);
    }
    let suffix = or_memory(suffix(alloc))?;
    let world = or_memory(World::new(alloc, count, &suffix))?;
    at_node(world, n)
}

/// Carries out a call, tells its answer, and hands the node back.
pub fn ask(
    alloc: Global,
    mut at: AtNode,
    call: &str,
    fields: &mut Fields<'_>,
    told: &mut String,
) -> Result<AtNode, CaseFault> {
    match call {
        "clock" => {
            let n = next_number(fields)?;
            let world = at.into_world();
            write!(told, "{}", world.clock())?;
            at_node(world, n)
        }
        "audit" => {
            tell_audit(told, at.audit())?;
            Ok(at)
        }
        "at" => at_node(at.into_world(), next_number(fields)?),
        "empty_has" => {
            tell_bool(told, World::empty(alloc).has_node(next_number(fields)?))?;
            Ok(at)
        }
        _ => {
            node::ask(alloc, &mut at, call, fields, told)?;
            Ok(at)
        }
    }
}
