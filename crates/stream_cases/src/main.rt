//! Cases of streams that are served, and of what hands streams out, holds up and tells the time. The first
//! word of a case names the part, the second the call. The last line is what comes back over real sockets.
#![tactic(auto)]

mod edges;
mod served;
mod socket;

use case_lines::{CaseFault, Fields, Subjects, run_cases};
use std::alloc::Global;
use std::process::ExitCode;
use std::sync::Wait;
use std::time::Clock;
use std::{env, io, process};

/// What the runtime is, and what the client sends in the next cases.
#[derive(Drop)]
struct StreamCases<'a, R> {
    rt: &'a R,
    sent: Vec<u8>,
}

impl<R> StreamCases<'_, R> {
    /// `client sends` bytes in place of those before, or `adds` some behind them.
    fn take(&mut self, alloc: Global, fields: &mut Fields<'_>) -> Result<(), CaseFault> {
        match fields.word()? {
            "sends" => self.sent = fields.bytes(alloc)?,
            "adds" => self
                .sent
                .extend_from_slice(fields.bytes(alloc)?.as_slice())?,
            _ => return Err(CaseFault::Argument),
        }
        Ok(())
    }
}

impl<R: Wait + Clock> Subjects for StreamCases<'_, R> {
    fn answer(
        &mut self,
        alloc: Global,
        subject: &str,
        fields: &mut Fields<'_>,
        told: &mut String,
    ) -> Result<(), CaseFault> {
        match subject {
            "client" => self.take(alloc, fields),
            "serve" => served::answer(self.rt, alloc, self.sent.as_slice(), fields, told),
            "edge" => edges::answer(alloc, fields, told),
            "clock" => edges::later_than(self.rt, fields, told),
            _ => Err(CaseFault::Subject),
        }
    }
}

/// The port of the words `serve PORT`.
fn port_to_serve(rt: &HostRuntime) -> io::Result<Option<u16>> {
    let words: Vec<String> = env::args(rt)?.skip(1).collect(rt.alloc())?;
    let [word, port] = words.as_slice() else {
        return Ok(None);
    };
    if word.as_str() != "serve" {
        return Ok(None);
    }
    Ok(port.parse::<u16>().ok())
}

fn main(rt: HostRuntime) -> ExitCode {
    if let Ok(Some(port)) = port_to_serve(&rt) {
        let served = socket::serve_all(&rt, rt.alloc(), port);
        return ExitCode::from(u8::from(served.is_err()));
    }
    let sent = Vec::new(rt.alloc());
    let status = run_cases(&rt, &mut StreamCases { rt: &rt, sent });
    // A port that no other process of the same number uses.
    let port = 20_000 + (process::id(rt.process()) % 40_000) as u16;
    let mut told = String::new(rt.alloc());
    let answered = socket::answer(&rt, rt.alloc(), port, socket::ASKED, &mut told);
    if answered.is_err() || println!(rt; "over sockets: {told}").is_err() {
        return ExitCode::from(1);
    }
    status
}
