//! Names, values, changes and updates.

use crate::csn::{Csn, Uid};
use crate::items::{Bytes, BytesList, Items};

/// The key of an attribute: its name in lower case, with one spelling for each type, and its
/// options (RFC 4512, section 2.5).
#[derive(Clone, Debug, Drop)]
pub struct AttrKey {
    pub name: Bytes,
}

/// A value: the key by which it compares (RFC 4518), and how it was spelled.
#[derive(Clone, Debug, Drop)]
pub struct Val {
    pub key: Bytes,
    pub spelled: Bytes,
}

pub type ValList = Items<Val>;

/// One part of a relative name: an attribute and its value (RFC 4514, section 2).
#[derive(Clone, Debug, Drop)]
pub struct Ava {
    pub attr: AttrKey,
    pub val: Val,
}

pub type AvaList = Items<Ava>;

/// A relative name: its parts in order of attribute.
#[derive(Clone, Debug, Drop)]
pub struct Rdn {
    pub avas: AvaList,
}

/// An attribute with its values in order of key.
#[derive(Clone, Debug, Drop)]
pub struct Attr {
    pub attr: AttrKey,
    pub vals: ValList,
}

pub type AttrList = Items<Attr>;

/// What a modification does to the values of its attribute (RFC 4511, section 4.6).
#[derive(Clone, Copy, Debug, Drop, Eq, PartialEq)]
pub enum ModKind {
    Add,
    /// Deletes the values, and the whole attribute where there are none.
    Delete,
    /// Deletes the whole attribute and adds the values.
    Replace,
}

/// One modification of a modify.
#[derive(Clone, Debug, Drop)]
pub struct Mod {
    pub kind: ModKind,
    pub attr: AttrKey,
    pub vals: ValList,
}

pub type ModList = Items<Mod>;

/// What a change does to its target.
#[derive(Clone, Debug, Drop)]
pub enum Body {
    /// The target, whose id is the change's own CSN, comes to be below the parent.
    Add {
        parent: Uid,
        rdn: Rdn,
        attrs: AttrList,
    },
    /// The modifications, one after the other.
    Mod {
        mods: ModList,
    },
    /// The target gets another relative name. The dropped values of the old one go.
    Ren {
        rdn: Rdn,
        dropped: AvaList,
    },
    /// The target is deleted.
    Del,
}

/// A change: who drew its CSN took it first.
#[derive(Clone, Debug, Drop)]
pub struct Change {
    pub csn: Csn,
    pub target: Uid,
    pub body: Body,
}

/// A change on its way, with the greatest CSN of its originator below it, or zero.
#[derive(Clone, Debug, Drop)]
pub struct Update {
    pub change: Change,
    pub prev: Csn,
}

/// An attribute as a search shows it.
#[derive(Clone, Debug, Drop)]
pub struct Shown {
    pub attr: AttrKey,
    pub vals: ValList,
    /// It is shown only where it is asked for (RFC 4512, section 3.4).
    pub operational: bool,
}

pub type ShownList = Items<Shown>;

/// An entry as a search shows it.
#[derive(Clone, Debug, Drop)]
pub struct ShownEntry {
    pub id: Uid,
    /// The printed name (RFC 4514).
    pub dn: Bytes,
    pub attrs: ShownList,
}

pub type ShownEntryList = Items<ShownEntry>;

/// The suffix of a replica: its printed name, and its first relative name.
#[derive(Clone, Debug, Drop)]
pub struct Suffix {
    pub name: Bytes,
    pub rdn: Rdn,
}

/// The texts of an update vector, one for each replica.
pub type VectorText = BytesList;

/// Why a change is none that may be taken. Places count from 0.
#[derive(Clone, Copy, Debug, Drop, Eq, PartialEq)]
pub enum Malformed {
    /// The replica id is 0 or 65535.
    Rid,
    /// The subsequence is not 0.
    Sub,
    /// The target of an Add is not its own CSN, or another target or a parent is not below the CSN.
    Order,
    /// A Del or a Ren of the suffix.
    Root,
    /// More than 500 attributes or 1,000 modifications.
    TooMany,
    /// A weight above 2,097,152.
    TooHeavy,
    /// A relative name, a list of modifications, or the values of an attribute have no member.
    Empty { place: usize },
    /// Attributes, name parts or values do not strictly rise by key.
    DoubleKey { place: usize },
    /// A derived attribute or class is named.
    Derived { place: usize },
    /// An Add lacks a value of its relative name.
    NameValue,
    /// An update's `prev` is neither zero nor a CSN of its originator below it. `check` never tells it.
    Prev,
}
