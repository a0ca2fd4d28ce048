//! A ticket that the world holds.

ghost use Rattle.std.specs.Prelude.{◌≡◌};

use ldap_types::{Identity, LdapResult, Request};
use node_core::{Receipt, Ticket};
use std::marker::Model;

/// What is held for a ticket at its node.
#[derive(Debug)]
pub(crate) enum Stage {
    Open(Ticket),
    Committed(Receipt),
}

/// A ticket of the world. It must be spent, since what is held for it must be.
///
/// Contracts see the ticket of the definitions.
#[derive(Debug)]
pub(crate) struct Held {
    pub number: u32,
    pub node: u16,
    pub request: Request,
    pub bound: Identity,
    pub stage: Stage,
    /// What its last commit was answered, if that failed.
    pub trouble: Option<LdapResult>,
}

impl Model for Held {
    ghost use Rattle.std.specs.Coded.{codes};
    ghost use Rattle.ldap_types.specs.contracts.request.Filter as filter;
    ghost use Rattle.world_core.specs.World.{Ticket};

    ghost Value = { Ticket };

    ghost coded = { Prim.hlevel (codes, filter.the_row.coded) };

    ghost use Rattle.world_core.specs.Held.{stage_life, stage_csn, is_committed};

    ghost view = { λ h. record { number = h.number; node = h.node; life = stage_life h.stage; csn = stage_csn h.stage; request = h.request; bound = h.bound; committed = is_committed h.stage; trouble = h.trouble } };
}

/// Drops a request. (A proof reads a drop of one in place, and its cases are many.)
pub(crate) fn lose(_request: Request) {}

impl Held {
    pub fn number(&self) -> u32
        ensures { result ≡ self.now.number }
    {
        self.number
    }

    pub fn node(&self) -> u16
        ensures { result ≡ self.now.node }
    {
        self.node
    }

    pub fn is_committed(&self) -> bool
        ensures { result ≡ self.now.committed }
    {
        match self.stage {
            Stage::Open(_) => false,
            Stage::Committed(_) => true,
        }
    }
}
