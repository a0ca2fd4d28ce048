//! The data of replication: change sequence numbers, ids, changes and updates.
#![tactic(auto)]

mod change;
mod compare;
mod csn;
mod faults;
mod items;
mod laws;
mod made;
mod sorted;
mod truth;
mod types;
mod view;

pub use change::{
    Attr, AttrKey, AttrList, Ava, AvaList, Body, Change, Malformed, Mod, ModKind, ModList, Rdn,
    Shown, ShownEntry, ShownEntryList, ShownList, Suffix, Update, Val, ValList, VectorText,
};
pub use csn::{Csn, CsnList, Uid, UidList};
pub use faults::{GREATEST_WEIGHT, check, weight};
pub use items::{Bytes, BytesList, Items, NoMemory};
pub use laws::{derived_laws, name_laws, path_laws, presence_laws, view_laws};
pub use made::{attr_named, text_val};
pub use sorted::{Keyed, found_by_key, is_below, place_of, put_by_key};
pub use truth::{and, or, same_bytes, same_id};
pub use types::{is_derived_attribute, is_derived_part, is_derived_value, is_single};
pub use view::{Standing, View};
