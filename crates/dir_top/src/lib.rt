//! The top calls of the program: `exec_main` carries out a script.
#![tactic(auto)]

mod client;
mod exec;
mod message;
mod report;
mod script;
mod serving;
mod state;
mod status;
mod why;

pub use exec::exec_main;
pub use status::Status;
pub use why::LineWhy;
