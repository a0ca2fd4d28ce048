//! What a session came to, as text.

use agreement_run::{RunEnd, SessionEnd};
use case_lines::{CaseFault, tell_bytes, tell_text};
use repl_data::Bytes;
use std::fmt::Write;

/// Tells the end: `done SENT`, `refused CODE TEXT SENT`, `strange` or `lost`.
pub fn tell_end(told: &mut String, end: &RunEnd) -> Result<(), CaseFault> {
    match end {
        RunEnd::Ended(SessionEnd::Done { sent }) => write!(told, "done {sent}")?,
        RunEnd::Ended(SessionEnd::Refused { answer, sent }) => {
            let code = answer.code.number;
            write!(told, "refused {code} ")?;
            tell_text(told, answer.text.as_slice())?;
            write!(told, " {sent}")?;
        }
        RunEnd::Ended(SessionEnd::Strange) => told.push_str("strange")?,
        RunEnd::Lost => told.push_str("lost")?,
    }
    Ok(())
}

/// How many of these messages the bytes begin with, and the bytes behind them.
fn split_messages<'a>(bytes: &'a [u8], messages: &[Bytes]) -> (usize, &'a [u8]) {
    let mut rest = bytes;
    let mut count = 0usize;
    for message in messages {
        let Some(behind) = rest.strip_prefix(message.as_slice()) else {
            break;
        };
        rest = behind;
        count = count.saturating_add(1);
    }
    (count, rest)
}

/// Tells how many of these messages were written, and how many bytes of the next one, or other bytes.
pub fn tell_written(
    told: &mut String,
    written: &[u8],
    messages: &[Bytes],
) -> Result<(), CaseFault> {
    let (count, rest) = split_messages(written, messages);
    write!(told, ", {count} messages")?;
    if rest.is_empty() {
        return Ok(());
    }
    let Some(next) = messages.get(count) else {
        told.push_str(" and ")?;
        return tell_bytes(told, rest);
    };
    if next.as_slice().starts_with(rest) {
        let size = rest.len();
        write!(told, " and {size} bytes")?;
        return Ok(());
    }
    told.push_str(" and ")?;
    tell_bytes(told, rest)
}

/// Tells how many reads and writes failed, where any did.
pub fn tell_faults(told: &mut String, reads: u64, writes: u64) -> Result<(), CaseFault> {
    if reads > 0 {
        write!(told, ", reads failed: {reads}")?;
    }
    if writes > 0 {
        write!(told, ", writes failed: {writes}")?;
    }
    Ok(())
}

/// Tells how many bytes were not read, where there are any.
pub fn tell_left(told: &mut String, left: usize) -> Result<(), CaseFault> {
    if left > 0 {
        write!(told, ", {left} bytes left")?;
    }
    Ok(())
}

/// What was told last of the sessions of a case.
#[derive(Drop)]
pub struct Last {
    told: String,
}

impl Last {
    /// Nothing.
    pub fn new(told: String) -> Last {
        Last { told }
    }

    /// Tells what the session with this number came to, where the one before came to something else.
    pub fn tell(
        &mut self,
        told: &mut String,
        number: u64,
        outcome: String,
    ) -> Result<(), CaseFault> {
        if outcome.as_str() != self.told.as_str() {
            if !told.is_empty() {
                told.push_str("; ")?;
            }
            write!(told, "from {number} {outcome}")?;
            self.told = outcome;
        }
        Ok(())
    }
}
