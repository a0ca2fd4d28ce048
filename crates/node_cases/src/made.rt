//! Nodes whose directory has the suffix `dc=example`.

ghost use Rattle.std.specs.Prelude.{◌<◌};

use case_views::example_suffix;
use node_core::NodeState;
use repl_data::{NoMemory, Suffix};
use std::alloc::Global;

pub fn suffix(alloc: Global) -> Result<Suffix, NoMemory> {
    match example_suffix(alloc) {
        Ok(suffix) => Ok(suffix),
        Err(_) => Err(NoMemory),
    }
}

/// A node that has taken nothing.
pub fn node(alloc: Global, rid: u16) -> Result<NodeState, NoMemory>
    requires from_1 { 0 < rid }
    requires to_65534 { rid < 65535 }
{
    let suffix = suffix(alloc)?;
    NodeState::new(alloc, rid, &suffix)
}
