//! How a run ended: its number and its text.

ghost use Rattle.std.specs.Prelude.{◌≡◌, ◌++◌, IfOk};
ghost use Rattle.dir_top.specs.Status.{number_of, line_text, text_of};

use crate::why::LineWhy;
use repl_data::{Bytes, NoMemory};
use script_text::number_word;
use std::alloc::Global;

/// How a run of the program ended.
#[derive(Debug, Drop)]
pub enum Status {
    /// The script was read to its end, and its whole output was written.
    Done,
    /// The words of the command line are wrong. This is the first that is, or nothing where one is missing.
    Usage { word: Bytes },
    /// The line of this number, counted from 1, is refused. The output of the lines before it was written.
    ScriptRefused { line: u32, why: LineWhy },
    /// More than 1,000,000 lines came. The output of the first 1,000,000 was written.
    TooLong,
    /// The source failed. A front of the output was written.
    ReadFault,
    /// The sink failed. A front of the output was written.
    WriteFault,
    /// No memory was left. A front of the output was written.
    NoMemory,
    /// The line of this number, counted from 1, isn't built yet. The output of the lines before it was written.
    NotYet { line: u32 },
}

impl Status {
    /// The exit status of the program.
    pub fn number(&self) -> u8
        ensures { result ≡ number_of self.now }
    {
        match self {
            Status::Done => 0,
            Status::Usage { .. } => 2,
            Status::ScriptRefused { .. } => 3,
            Status::TooLong => 4,
            Status::ReadFault => 5,
            Status::WriteFault => 6,
            Status::NoMemory => 7,
            Status::NotYet { .. } => 8,
        }
    }

    /// What the program tells of it on standard error: nothing where all went well.
    pub fn text(&self, alloc: Global) -> Result<Bytes, NoMemory>
        ensures { IfOk result (λ text. text ≡ text_of self.now) }
    {
        match self {
            Status::Done => Ok(Bytes::new(alloc)),
            Status::Usage { word } => joined(alloc, b"usage: ", word.as_slice()),
            Status::ScriptRefused { line, why } => {
                let why = why.text(alloc)?;
                line_text(alloc, *line, why.as_slice())
            }
            Status::TooLong => Bytes::from_slice(alloc, b"too many lines"),
            Status::ReadFault => Bytes::from_slice(alloc, b"read failed"),
            Status::WriteFault => Bytes::from_slice(alloc, b"write failed"),
            Status::NoMemory => Bytes::from_slice(alloc, b"no memory"),
            Status::NotYet { line } => line_text(alloc, *line, b"not yet"),
        }
    }
}

fn joined(alloc: Global, front: &[u8], back: &[u8]) -> Result<Bytes, NoMemory>
    ensures { IfOk result (λ text. text ≡ front.now ++ back.now) }
{
    let mut text = Bytes::from_slice(alloc, front)?;
    text.extend_from_slice(back)?;
    Ok(text)
}

/// What is told of the line of this number.
#[tactic(auto, unfolding(crate::specs::Status::line_text))]
fn line_text(alloc: Global, line: u32, what: &[u8]) -> Result<Bytes, NoMemory>
    ensures { IfOk result (λ text. text ≡ line_text line what.now) }
{
    let mut text = Bytes::from_slice(alloc, b"line ")?;
    text.append(number_word(alloc, u64::from(line))?)?;
    text.extend_from_slice(b": ")?;
    text.extend_from_slice(what)?;
    Ok(text)
}
