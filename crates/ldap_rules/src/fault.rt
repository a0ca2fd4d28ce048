//! What becomes of a request that is not refused.

use ldap_types::LdapResult;
use repl_data::{Body, Uid};

/// What becomes of a request that is not refused.
#[derive(Debug, Drop)]
pub enum Judged {
    /// A change of this entry is to be made. An add has no target: it makes a new entry.
    Write { target: Option<Uid>, body: Body },
    /// The answer, of a request that changes nothing.
    Answer(LdapResult),
}
