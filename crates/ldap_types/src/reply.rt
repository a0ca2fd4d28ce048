//! Replies, results and codes (RFC 4511, sections 4.1.9 and 4.2 to 4.12).

use crate::request::RawAttrList;
use repl_data::Bytes;

/// A message of a server (RFC 4511, section 4.1.1).
#[derive(Clone, Debug, Drop)]
pub struct Reply {
    /// That of the request which it answers, and 0 where it answers none.
    pub id: u32,
    pub op: ReplyOp,
}

/// What a server answers.
#[derive(Clone, Debug, Drop)]
pub enum ReplyOp {
    /// RFC 4511, section 4.2.2.
    Bind(LdapResult),
    /// An entry that a search found (RFC 4511, section 4.5.2).
    Entry {
        name: Bytes,
        attrs: RawAttrList,
    },
    /// The end of a search (RFC 4511, section 4.5.2).
    Done(LdapResult),
    /// RFC 4511, section 4.6.
    Modify(LdapResult),
    /// RFC 4511, section 4.7.
    Add(LdapResult),
    /// RFC 4511, section 4.8.
    Delete(LdapResult),
    /// RFC 4511, section 4.9.
    Rename(LdapResult),
    /// RFC 4511, section 4.10.
    Compare(LdapResult),
    /// RFC 4511, section 4.12.
    Extended {
        result: LdapResult,
        oid: Option<Bytes>,
        value: Option<Bytes>,
    },
}

/// How an operation ended (RFC 4511, section 4.1.9).
#[derive(Clone, Debug, Drop)]
pub struct LdapResult {
    pub code: Code,
    /// The nearest entry that was found, and empty where the code doesn't ask for it.
    pub matched: Bytes,
    /// A text for people.
    pub text: Bytes,
}

/// The code of a result (RFC 4511, appendix A). The constants are those that this server answers
/// with; a peer may answer with others.
#[derive(Clone, Copy, Debug, Drop, Eq, PartialEq)]
pub struct Code {
    pub number: u32,
}

impl Code {
    pub const SUCCESS: Code = Code { number: 0 };

    pub const PROTOCOL_ERROR: Code = Code { number: 2 };

    pub const SIZE_LIMIT_EXCEEDED: Code = Code { number: 4 };

    pub const COMPARE_FALSE: Code = Code { number: 5 };

    pub const COMPARE_TRUE: Code = Code { number: 6 };

    pub const AUTH_METHOD_NOT_SUPPORTED: Code = Code { number: 7 };

    pub const REFERRAL: Code = Code { number: 10 };

    pub const ADMIN_LIMIT_EXCEEDED: Code = Code { number: 11 };

    pub const UNAVAILABLE_CRITICAL_EXTENSION: Code = Code { number: 12 };

    pub const NO_SUCH_ATTRIBUTE: Code = Code { number: 16 };

    pub const UNDEFINED_ATTRIBUTE_TYPE: Code = Code { number: 17 };

    pub const CONSTRAINT_VIOLATION: Code = Code { number: 19 };

    pub const ATTRIBUTE_OR_VALUE_EXISTS: Code = Code { number: 20 };

    pub const INVALID_ATTRIBUTE_SYNTAX: Code = Code { number: 21 };

    pub const NO_SUCH_OBJECT: Code = Code { number: 32 };

    pub const INVALID_DN_SYNTAX: Code = Code { number: 34 };

    pub const INVALID_CREDENTIALS: Code = Code { number: 49 };

    pub const INSUFFICIENT_ACCESS_RIGHTS: Code = Code { number: 50 };

    pub const BUSY: Code = Code { number: 51 };

    pub const UNAVAILABLE: Code = Code { number: 52 };

    pub const UNWILLING_TO_PERFORM: Code = Code { number: 53 };

    pub const NAMING_VIOLATION: Code = Code { number: 64 };

    pub const OBJECT_CLASS_VIOLATION: Code = Code { number: 65 };

    pub const NOT_ALLOWED_ON_NON_LEAF: Code = Code { number: 66 };

    pub const NOT_ALLOWED_ON_RDN: Code = Code { number: 67 };

    pub const ENTRY_ALREADY_EXISTS: Code = Code { number: 68 };

    pub const OTHER: Code = Code { number: 80 };
}

/// Whom a connection speaks for.
#[derive(Clone, Copy, Debug, Drop, Eq, PartialEq)]
pub enum Identity {
    /// Nobody: no bind yet, or one that named nobody or was refused.
    Anonymous,
    /// The one who may write.
    Manager,
    /// Another server, which brings the changes that it has.
    Supplier,
}
