//! The messages of LDAP as plain data (RFC 4511): requests of clients, replies of servers.
#![tactic(auto)]

mod reply;
mod request;

pub use repl_data::{Bytes, BytesList, NoMemory};
pub use reply::{Code, Identity, LdapResult, Reply, ReplyOp};
pub use request::{
    Auth, BindRequest, Control, ControlList, Filter, FilterList, MESSAGE_LIMIT, Op, RawAttr,
    RawAttrList, RawMod, RawModList, Request, SearchRequest,
};
pub use sqlite_items::Boxed;
