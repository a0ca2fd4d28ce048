//! Replies of servers, written and read back (RFC 4511, sections 4 and 5.1).
#![tactic(auto)]

mod piece;
mod read;
mod write;

pub use ber_core::{NotLdapWhy, ReadFault};
pub use ldap_types::{Bytes, MESSAGE_LIMIT, NoMemory, Reply};
pub use read::{read_reply, reply_laws};
pub use write::write_reply;
