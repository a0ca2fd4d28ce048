//! The rules of LDAP for writes: who may write, what is refused and in which order, and the change that a
//! request that is accepted makes (RFC 4511, sections 4.2 and 4.6 to 4.10).
#![tactic(auto)]

mod add;
mod bind;
mod case;
mod compare;
mod delete;
mod derived;
mod fault;
mod judging;
mod laws;
mod modify;
mod name_keys;
mod rename;
mod values;
mod writes;

pub use bind::{MANAGER, MANAGER_PASSWORD, SUPPLIER, SUPPLIER_PASSWORD, judge_bind};
pub use compare::compared;
pub use dn_text::JudgeFault;
pub use fault::Judged;
pub use judging::{is_change, is_judged, is_update, judge};
pub use laws::rule_laws;
pub use ldap_types::Identity;
pub use name_keys::place_laws;
pub use writes::UPDATE_CONTROL;
