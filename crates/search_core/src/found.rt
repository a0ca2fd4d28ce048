//! What a search answers.

use ldap_types::LdapResult;
use repl_data::ShownEntryList;

/// The answer to a search: the entries that it found, in their order, and how it ended.
#[derive(Debug, Drop)]
pub struct Found {
    pub entries: ShownEntryList,
    pub result: LdapResult,
}

/// The entries that are answered, and whether there were more than the size limit lets through.
#[derive(Debug, Drop)]
pub(crate) struct Hits {
    pub(crate) entries: ShownEntryList,
    pub(crate) over: bool,
}
