//! The messages that suppliers and consumers send each other, both ways: the start of a session, its
//! answer and its end as extended requests and a reply (RFC 4511, section 4.12), and updates as writes with
//! a control (sections 4.1.11 and 4.6 to 4.9).
#![tactic(auto)]

mod control;
mod extended;
mod fault;
mod keyed;
mod laws;
mod session;
mod update;
mod vector;
mod write;

pub use extended::{end_name, start_name};
pub use fault::{WireFault, WireWhy};
pub use laws::wire_laws;
pub use session::{
    End, read_end, read_start, read_started, started_reply, write_end, write_start, write_started,
};
pub use update::{is_update, read_update, update_name};
pub use vector_core::{Start, Vector};
pub use write::write_update;
