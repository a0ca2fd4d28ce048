//! Distinguished names as text, both ways (RFC 4514), and the entry that a request names.
#![tactic(auto)]

mod below;
mod escape;
mod fault;
mod laws;
mod name;
mod named;
mod part;
mod place;
mod print;
mod rdn;
mod refusing;
mod split;
mod suffix;

pub use fault::{DnFault, DnWhy, JudgeFault};
pub use laws::dn_laws;
pub use name::{Dn, RdnList, read_dn};
pub use named::{count_above, object, rdns_above, same_keys};
pub use place::{Place, entry_at};
pub use print::print_dn;
pub use refusing::{refused, result_of};
pub use repl_data::{Ava, AvaList, Bytes, NoMemory, Rdn, Suffix};
pub use suffix::read_suffix;
