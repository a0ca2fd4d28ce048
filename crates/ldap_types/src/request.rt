//! Requests, their operations, filters and controls (RFC 4511, section 4).

use repl_data::{Bytes, BytesList, Items};
use sqlite_items::Boxed;

/// How many bytes a message has at most.
pub const MESSAGE_LIMIT: usize = 2_097_152;

/// A message of a client (RFC 4511, section 4.1.1).
#[derive(Debug, Drop)]
pub struct Request {
    /// From 1 to 2147483647. 0 belongs to messages that nobody asked for.
    pub id: u32,
    pub op: Op,
    pub controls: ControlList,
}

/// A control, which changes what its request means (RFC 4511, section 4.1.11).
#[derive(Clone, Debug, Drop)]
pub struct Control {
    /// The dotted number that names it.
    pub oid: Bytes,
    /// A server that doesn't know it must refuse the request.
    pub critical: bool,
    pub value: Option<Bytes>,
}

pub type ControlList = Items<Control>;

/// What a client asks for.
#[derive(Debug, Drop)]
pub enum Op {
    Bind(BindRequest),
    /// Ends the connection, and has no answer (RFC 4511, section 4.3).
    Unbind,
    Search(SearchRequest),
    /// The modifications of an entry, in their order (RFC 4511, section 4.6).
    Modify {
        object: Bytes,
        mods: RawModList,
    },
    /// An entry, with its attributes (RFC 4511, section 4.7).
    Add {
        object: Bytes,
        attrs: RawAttrList,
    },
    /// RFC 4511, section 4.8.
    Delete {
        object: Bytes,
    },
    /// Another name for an entry (RFC 4511, section 4.9).
    Rename {
        object: Bytes,
        new_rdn: Bytes,
        /// The values of the old relative name go.
        delete_old: bool,
        new_superior: Option<Bytes>,
    },
    /// Whether an entry has this value of this attribute (RFC 4511, section 4.10).
    Compare {
        object: Bytes,
        name: Bytes,
        value: Bytes,
    },
    /// No answer is wanted any more for the request with this id, from 0 to 2147483647 (RFC 4511,
    /// section 4.11).
    Abandon {
        id: u32,
    },
    /// An operation that its dotted number names (RFC 4511, section 4.12).
    Extended {
        oid: Bytes,
        value: Option<Bytes>,
    },
}

/// Who the client says it is (RFC 4511, section 4.2).
#[derive(Clone, Debug, Drop)]
pub struct BindRequest {
    /// Of the protocol: 3, where the client is not mistaken.
    pub version: i64,
    pub name: Bytes,
    pub auth: Auth,
}

/// How the client shows who it is.
#[derive(Clone, Debug, Drop)]
pub enum Auth {
    /// By a password.
    Simple(Bytes),
    /// By a mechanism of SASL, of which nothing is kept.
    Sasl,
}

/// Which entries are wanted, and what of them (RFC 4511, section 4.5.1).
#[derive(Debug, Drop)]
pub struct SearchRequest {
    pub base: Bytes,
    /// 0 the base alone, 1 what is directly below it, 2 the base and all that is below it.
    pub scope: i64,
    /// Which aliases are followed, from 0 to 3.
    pub deref: i64,
    /// How many entries at most, from 0 to 2147483647. 0 sets no limit.
    pub size_limit: u32,
    /// In seconds, from 0 to 2147483647. 0 sets no limit.
    pub time_limit: u32,
    /// Names of attributes alone, and no values.
    pub types_only: bool,
    pub filter: Filter,
    /// Which attributes are wanted.
    pub attrs: BytesList,
}

/// Which entries a search is for (RFC 4511, section 4.5.1.7).
#[derive(Debug, Drop)]
pub enum Filter {
    And(FilterList),
    Or(FilterList),
    Not(Boxed<Filter>),
    Equality {
        name: Bytes,
        value: Bytes,
    },
    /// Some value begins with `first`, ends with `last`, and has the middle pieces between them, in
    /// their order and apart from each other. There is at least one piece.
    Substrings {
        name: Bytes,
        first: Option<Bytes>,
        middle: BytesList,
        last: Option<Bytes>,
    },
    AtLeast {
        name: Bytes,
        value: Bytes,
    },
    AtMost {
        name: Bytes,
        value: Bytes,
    },
    Present {
        name: Bytes,
    },
    Approximate {
        name: Bytes,
        value: Bytes,
    },
    /// A match by a rule that the client names, of which nothing is kept.
    Extensible,
}

/// Filters inside another. It is the list type of the library, which a type that leads back to itself
/// can go through.
pub type FilterList = sqlite_items::Items<Filter>;

/// A modification as the client spells it (RFC 4511, section 4.6).
#[derive(Clone, Debug, Drop)]
pub struct RawMod {
    /// 0 adds the values, 1 deletes them, 2 replaces all by them.
    pub kind: i64,
    pub name: Bytes,
    pub vals: BytesList,
}

pub type RawModList = Items<RawMod>;

/// An attribute with its values as they are spelled (RFC 4511, section 4.1.7).
#[derive(Clone, Debug, Drop)]
pub struct RawAttr {
    pub name: Bytes,
    pub vals: BytesList,
}

pub type RawAttrList = Items<RawAttr>;
