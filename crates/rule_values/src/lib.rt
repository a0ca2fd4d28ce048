//! Attributes and values of writes (RFC 4511, sections 4.6 and 4.7): how they are read, what is refused of them and
//! in which order, and what an add and a modify write of them.
#![tactic(auto)]

mod attributes;
mod case;
mod counting;
mod ended;
mod fault;
mod head_key;
mod headed;
mod held;
mod laws;
mod modify;
mod read_mod;
mod reading;
mod sorted;
mod spelled;
mod step;
mod table;
mod val_set;
mod written;

pub use attributes::entry_attributes;
pub use fault::{Refusal, ValueFault};
pub use laws::modify_laws;
pub use modify::modifications;
pub use reading::{read_name, read_value};
