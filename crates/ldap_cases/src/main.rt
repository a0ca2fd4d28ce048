//! Cases of LDAP messages: requests that are read or waited for, and replies that are read and written.
#![tactic(auto)]

mod codes;
mod fault;
mod filter;
mod op;
mod parts;
mod reply;
mod request;
mod waiting;

use case_lines::{CaseFault, Fields, Subjects, run_cases};
use ldap_replies::reply_laws;
use ldap_requests::request_laws;
use request_wait::{Unfinished, waiting_laws};
use std::alloc::Global;
use std::process::ExitCode;

/// What is asked of messages. The bytes of an unfinished one are kept from case to case.
#[derive(Drop)]
struct Messages {
    unfinished: Unfinished,
}

impl Subjects for Messages {
    fn answer(
        &mut self,
        alloc: Global,
        subject: &str,
        fields: &mut Fields<'_>,
        told: &mut String,
    ) -> Result<(), CaseFault> {
        match subject {
            "request" => request::read(alloc, fields, told),
            "request_fronts" => request::fronts(alloc, fields, told),
            "reply" => reply::read(alloc, fields, told),
            "reply_fronts" => reply::fronts(alloc, fields, told),
            "code" => codes::number(fields, told),
            "certain" => waiting::certain(alloc, fields, told),
            "goes_on" => waiting::goes_on(alloc, fields, told),
            _ => waiting::answer(&mut self.unfinished, alloc, subject, fields, told),
        }
    }
}

fn main(rt: HostRuntime) -> ExitCode {
    request_laws();
    reply_laws();
    waiting_laws();
    let unfinished = Unfinished::new(rt.alloc());
    run_cases(&rt, &mut Messages { unfinished })
}
