//! Cases of sessions between a supplier and a consumer: whole ones over their bytes, with a refusal or a strange reply
//! at each place, and single messages to a consumer.
#![tactic(auto)]

mod ends;
mod message;
mod session;

use case_lines::{CaseFault, Fields, Subjects, run_cases};
use ends::Told;
use replica_session::{Consumer, next_id, session_laws};
use std::alloc::Global;
use std::fmt::Write;
use std::process::ExitCode;

/// A consumer's connection, and its node.
#[derive(Drop)]
struct Connection {
    consumer: Consumer,
    node: Told,
}

impl Subjects for Connection {
    fn answer(
        &mut self,
        alloc: Global,
        subject: &str,
        fields: &mut Fields<'_>,
        told: &mut String,
    ) -> Result<(), CaseFault> {
        match subject {
            "session" => session::answer(alloc, fields, told),
            "hear" => message::hear(alloc, &mut self.consumer, &mut self.node, fields, told),
            "connect" => {
                self.consumer = Consumer::new();
                Ok(())
            }
            "close" => {
                self.consumer.closed(&mut self.node);
                self.node.tell_holder(told)
            }
            "holder" => self.node.tell_holder(told),
            "next_id" => {
                let id = next_id(
                    fields
                        .word()?
                        .parse::<u32>()
                        .ok()
                        .ok_or(CaseFault::Argument)?,
                );
                write!(told, "{id}")?;
                Ok(())
            }
            _ => Err(CaseFault::Subject),
        }
    }
}

fn main(rt: HostRuntime) -> ExitCode {
    session_laws::<ends::Offered>();
    let consumer = Consumer::new();
    let node = Told::new();
    run_cases(&rt, &mut Connection { consumer, node })
}
