//! The writes of clients.

ghost use Rattle.std.specs.Prelude.{◌≡◌, IsTrue};
ghost use Rattle.ldap_types.specs.declared.reply.Identity.{Identity};
ghost use Rattle.node_core.specs.Calls.{is_client_write, IsWrite};

use ldap_rules::{Identity, is_change, is_update};
use ldap_types::Request;

/// A write of a client, which a commit takes: an add, a modify, a delete or a modify DN that is no update of
/// another server.
pub fn is_client_write(request: &Request) -> bool
    ensures value { result ≡ is_client_write request.now }
    ensures write { IsTrue result → (bound : Identity) → IsWrite request.now bound }
{
    is_change(&request.op) && !is_update(request, Identity::Supplier)
}
