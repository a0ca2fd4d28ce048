//! One node: tickets, commits and updates, each call a step of its definitions.
#![tactic(auto)]

mod apply;
mod calls;
mod client;
mod commit;
mod fault;
mod front;
mod laws;
mod node;
mod reached;
mod searching;
mod shown;
mod ticket;

pub use calls::NodeCalls;
pub use client::is_client_write;
pub use fault::{BeginFault, CommitFault, used_up};
pub use laws::{answer_laws, arrival_laws, judge_laws, node_laws, update_laws, vector_laws};
pub use ldap_types::Identity;
pub use node::NodeState;
pub use search_core::Found;
pub use ticket::{Receipt, Ticket};
pub use vector_core::{AcquireFault, Applied, ApplyFault, Offer, Start};
pub use view_counts::Audit;
