//! Requests of clients, read from their bytes (RFC 4511, sections 4 and 5.1).
#![tactic(auto)]

mod filter;
mod message;
mod operation;
mod parts;

pub use ber_core::{NotLdapWhy, ReadFault};
pub use filter::FILTER_DEPTH;
pub use ldap_types::MESSAGE_LIMIT;
pub use message::{message_id, read_request, request_laws};
pub use parts::count;
