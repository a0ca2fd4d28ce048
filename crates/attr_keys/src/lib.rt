//! The keys of attribute names and of their values: equal keys are equal names and equal values
//! (RFC 4512, section 2.5; RFC 4518).
#![tactic(auto)]

mod fault;
mod kind;
mod laws;
mod name;
mod number;
mod table;
mod text;
mod value;

pub use fault::KeyFault;
pub use kind::Kind;
pub use laws::key_laws;
pub use name::attr_key;
pub use repl_data::{AttrKey, Bytes, NoMemory, is_single};
pub use table::kind_of;
pub use value::{compare_keys, piece_key, value_key};
