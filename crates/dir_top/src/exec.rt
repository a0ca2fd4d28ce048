//! `exec_main`: reads a script, carries out its lines, writes what they print.

ghost use Rattle.std.specs.Prelude.{◌≡◌, ◌≤◌, ◌<◌, length, ◌++◌, ◌∷◌, [], List, ℕ, Option, OnOk, OnErr, IfOk, IfErr, IfSome, IfNone, MatchResult, string_bytes, map, ◌⊎◌};
ghost use Rattle.std.specs.Option.{option_map};
ghost use Rattle.std.specs.Io.KnownBytes.{Appends, IsAtEnd};
ghost use Rattle.io_edge.specs.Causes.{HasCause, Rose};
ghost use Rattle.io_edge.specs.Edge.{AppendsFront};
ghost use Rattle.dir_top.specs.declared.state.State.{State};
ghost use Rattle.std.specs.Str.Lines.{strip_carriage_return};
ghost use Rattle.dir_top.specs.Step.{meant};
ghost use Rattle.script_text.specs.Line.{line_of};
ghost use Rattle.dir_top.specs.Output.{Outcome, Told, before_feed, content_of};
ghost use Rattle.dir_top.specs.Script.{step_of, line_limit, length_limit, output};
ghost use Rattle.dir_top.specs.Converges.{ConvergesThroughout};
ghost use Rattle.dir_top.specs.Running.{Stands, Reads, IsWithin, content_at, IsFromLine, IsFromRun, wrong_word};

use crate::script::{Step, take_line};
use crate::state::State;
use crate::status::Status;
use crate::why::LineWhy;
use io_edge::{Failed, Sink, Source};
use repl_data::{Bytes, NoMemory};
use script_text::{Line, LineFault, read_line};
use std::alloc::Global;
use world_core::judge_laws;

/// The greatest number of lines of a script.
const LINE_LIMIT: u32 = 1_000_000;

/// The greatest number of bytes of a line, before its line feed.
const LENGTH_LIMIT: usize = 4_194_400;

/// A script that is being read: the world so far, the part of a line that has come, and how many lines came before it.
#[derive(Drop)]
pub(crate) struct Script {
    pub world: Option<State>,
    pub line: Bytes,
    pub lines: u32,
}

/// Carries out the line that is written so, or says why the script stops before it.
fn carry_text(alloc: Global, world: &mut Option<State>, text: &[u8]) -> Result<Step, NoMemory>
    ensures { IfOk result (λ step. step_of world.old (line_of text.now) ≡ meant step world.new) }
{
    let line = match read_line(alloc, text) {
        Ok(line) => line,
        Err(LineFault::BadLine) => return Ok(Step::Refuses(LineWhy::Grammar)),
        Err(LineFault::NoMemory) => return Err(NoMemory),
    };
    let step = take_line(alloc, world, &line);
    lose_line(line);
    step
}

/// Drops a line. (A proof reads a drop of one in place, and its cases are many.)
fn lose_line(_line: Line) {}

/// The content of a line, which a line feed ended or not.
fn content(line: &[u8], is_ended: bool) -> &[u8]
    ensures { result.now ≡ content_at is_ended line.now }
{
    if is_ended { without_return(line) } else { line }
}

/// A line without the carriage return at its end.
fn without_return(line: &[u8]) -> &[u8]
    ensures { result.now ≡ strip_carriage_return line.now }
{
    if line.last() == Some(&b'\r') {
        &line[..line.len() - 1]
    } else {
        line
    }
}

/// Writes the piece, if there is any of it.
fn put<K: Sink>(sink: &mut K, piece: &[u8]) -> Result<(), Failed>
    ensures ok { OnOk result (Appends (K.contents sink.old) (K.contents sink.new) piece.now) }
    ensures err { OnErr result (AppendsFront (K.contents sink.old) (K.contents sink.new) piece.now) }
    ensures cause { HasCause (K.faults sink.old) (K.faults sink.new) result }
{
    if piece.is_empty() {
        Ok(())
    } else {
        sink.write(piece)
    }
}

impl Script {
    /// Carries out the line that has come, whose content this is, and prints its output.
    fn end_line<K: Sink>(
        &mut self,
        alloc: Global,
        is_ended: bool,
        sink: &mut K,
    ) -> Result<(), Status>
        requires limit { self.old.lines ≤ line_limit }
        requires length { length self.old.line ≤ length_limit }
        ensures run { (whole : Told (Option State)) (raw : List ℕ) (after : List (List ℕ)) (old : Option (List ℕ)) →
            before_feed raw ≡ self.old.line → content_of raw ≡ content_at is_ended self.old.line →
            Stands whole (raw ∷ after) self.old old (K.contents sink.old) →
            MatchResult result (λ _. Stands whole after self.new old (K.contents sink.new)) (λ status. Outcome whole status old (K.contents sink.new)) }
        ensures emptied { OnOk result (self.new.line ≡ []) }
        ensures limit { OnOk result (self.new.lines ≤ line_limit) }
        ensures later { K.faults sink.old ≤ K.faults sink.new }
        ensures kind { IfErr result IsFromLine }
        ensures cause { IfErr result (λ status. status ≡ Status.WriteFault → Rose (K.faults sink.old) (K.faults sink.new)) }
    {
        if self.lines == LINE_LIMIT {
            return Err(Status::TooLong);
        }
        let number = self.lines + 1;
        let content = content(self.line.as_slice(), is_ended);
        let Ok(step) = carry_text(alloc, &mut self.world, content) else {
            return Err(Status::NoMemory);
        };
        let printed = match step {
            Step::GoesOn(printed) => printed,
            Step::Refuses(why) => return Err(Status::ScriptRefused { line: number, why }),
            Step::NotBuilt => return Err(Status::NotYet { line: number }),
        };
        let Ok(()) = put(sink, printed.as_slice()) else {
            return Err(Status::WriteFault);
        };
        self.line.clear();
        self.lines = number;
        Ok(())
    }

    /// What is told of a line that is too long.
    fn long_line(&self) -> Status
        requires limit { self.now.lines ≤ line_limit }
        ensures run { (whole : Told (Option State)) (raw : List ℕ) (after : List (List ℕ)) (old now : Option (List ℕ)) →
            length_limit < length (before_feed raw) → Stands whole (raw ∷ after) self.now old now → Outcome whole result old now }
        ensures kind { IsFromLine result }
        ensures unwritten { result ≡ Status.WriteFault → ⊥ }
    {
        if self.lines == LINE_LIMIT {
            Status::TooLong
        } else {
            Status::ScriptRefused {
                line: self.lines + 1,
                why: LineWhy::LongLine,
            }
        }
    }

    /// Takes the next byte of the script.
    fn take_byte<K: Sink>(&mut self, alloc: Global, byte: u8, sink: &mut K) -> Result<(), Status>
        requires { IsWithin self.old }
        ensures run { (whole : Told (Option State)) (rest : List ℕ) (old : Option (List ℕ)) →
            Reads whole (byte ∷ rest) self.old old (K.contents sink.old) →
            MatchResult result (λ _. Reads whole rest self.new old (K.contents sink.new)) (λ status. Outcome whole status old (K.contents sink.new)) }
        ensures within { OnOk result (IsWithin self.new) }
        ensures later { K.faults sink.old ≤ K.faults sink.new }
        ensures cause { IfErr result (λ status. status ≡ Status.WriteFault → Rose (K.faults sink.old) (K.faults sink.new)) }
        ensures kind { IfErr result IsFromLine }
    {
        if byte == b'\n' {
            return self.end_line(alloc, true, sink);
        }
        if self.line.len() == LENGTH_LIMIT {
            return Err(self.long_line());
        }
        let Ok(()) = self.line.push(byte) else {
            return Err(Status::NoMemory);
        };
        Ok(())
    }

    /// Takes the next bytes of the script.
    fn take_piece<K: Sink>(
        &mut self,
        alloc: Global,
        piece: &[u8],
        sink: &mut K,
    ) -> Result<(), Status>
        requires { IsWithin self.old }
        ensures run { (whole : Told (Option State)) (rest : List ℕ) (old : Option (List ℕ)) →
            Reads whole (piece.now ++ rest) self.old old (K.contents sink.old) →
            MatchResult result (λ _. Reads whole rest self.new old (K.contents sink.new)) (λ status. Outcome whole status old (K.contents sink.new)) }
        ensures within { OnOk result (IsWithin self.new) }
        ensures later { K.faults sink.old ≤ K.faults sink.new }
        ensures cause { IfErr result (λ status. status ≡ Status.WriteFault → Rose (K.faults sink.old) (K.faults sink.new)) }
        ensures kind { IfErr result IsFromLine }
    {
        for byte in piece {
            if let Err(status) = self.take_byte(alloc, *byte, sink) {
                return Err(status);
            }
        }
        Ok(())
    }

    /// Takes the end of the script. A last line without LF counts.
    fn finish<K: Sink>(&mut self, alloc: Global, sink: &mut K) -> Status
        requires { IsWithin self.old }
        ensures run { (whole : Told (Option State)) (old : Option (List ℕ)) →
            Reads whole [] self.old old (K.contents sink.old) → Outcome whole result old (K.contents sink.new) }
        ensures later { K.faults sink.old ≤ K.faults sink.new }
        ensures cause { result ≡ Status.WriteFault → Rose (K.faults sink.old) (K.faults sink.new) }
        ensures unread { result ≡ Status.ReadFault → ⊥ }
        ensures kind { IsFromRun result }
    {
        if self.line.is_empty() {
            return Status::Done;
        }
        match self.end_line(alloc, false, sink) {
            Ok(()) => Status::Done,
            Err(status) => status,
        }
    }
}

impl Script {
    /// Nothing of a script has come.
    fn new(alloc: Global) -> Script
        ensures { result ≡ record { world = None; line = []; lines = 0 } }
    {
        Script {
            world: None,
            line: Bytes::new(alloc),
            lines: 0,
        }
    }
}

/// Reads the script to its end, and carries out each of its lines.
fn run_script<S: Source, K: Sink>(alloc: Global, source: &mut S, sink: &mut K) -> Status
    ensures outcome { IfSome (S.left source.old) (λ script. Outcome (output script) result (K.contents sink.old) (K.contents sink.new)) }
    ensures ended { result ≡ Status.Done → IsAtEnd (S.left source.new) }
    ensures read { result ≡ Status.ReadFault → Rose (S.faults source.old) (S.faults source.new) }
    ensures write { result ≡ Status.WriteFault → Rose (K.faults sink.old) (K.faults sink.new) }
    ensures kind { IsFromRun result }
{
    let mut script = Script::new(alloc);
    let mut buffer = [0u8; 4096];
    'reads: for _ in 0..u64::MAX {
        let Ok(count) = source.read(&mut buffer) else {
            return Status::ReadFault;
        };
        if count == 0 {
            return script.finish(alloc, sink);
        }
        if let Err(status) = script.take_piece(alloc, &buffer[..count], sink) {
            return status;
        }
    }
    Status::NoMemory
}

/// The first word that is wrong, where the words are not `exec` alone.
fn wrong_word(words: &[String]) -> Option<&str>
    ensures { option_map (λ word. word.now) result ≡ wrong_word (map string_bytes words.now) }
{
    match words {
        [] => Some(""),
        [first] => {
            if first.as_str() == "exec" {
                None
            } else {
                Some(first.as_str())
            }
        }
        [first, second, ..] => {
            if first.as_str() == "exec" {
                Some(second.as_str())
            } else {
                Some(first.as_str())
            }
        }
    }
}

/// What holds of every script.
fn script_laws()
    ensures converges { (script : List ℕ) → ConvergesThroughout script }
{
    judge_laws();
}

/// Carries out the script that the source gives, line after line, and prints to the sink.
///
/// The words are those of the command line without the program's name; they are to be `exec` alone.
/// The text of a line is written after the line was carried out. The time is linear in the lengths of
/// the script and of its output, but for logarithms of what the nodes hold.
pub fn exec_main<S: Source, K: Sink>(
    alloc: Global,
    words: &[String],
    source: &mut S,
    sink: &mut K,
) -> Status
    // Wrong words are told, and nothing is read or written then.
    ensures usage { IfSome (wrong_word (map string_bytes words.now)) (λ word.
        ((result ≡ Status.Usage word) ⊎ (result ≡ Status.NoMemory)) × (source.new ≡ source.old) × (sink.new ≡ sink.old)) }

    // Right words are never told to be wrong.
    ensures proper { IfNone (wrong_word (map string_bytes words.now)) (IsFromRun result) }

    // The status says where the script stopped, and what of its text was written.
    ensures outcome { IfNone (wrong_word (map string_bytes words.now)) (IfSome (S.left source.old) (λ script.
        Outcome (output script) result (K.contents sink.old) (K.contents sink.new))) }
    ensures ended { result ≡ Status.Done → IsAtEnd (S.left source.new) }

    // Before and after each line of every script the vectors are exact, each node holds a prefix of each originator's
    // changes, and nodes with equal vectors and nothing pending have the same changes, show the same entries, and answer
    // every search with the same bytes.
    ensures converges { (script : List ℕ) → ConvergesThroughout script }

    // A fault is told only where the source or the sink had one in this call.
    ensures read { result ≡ Status.ReadFault → Rose (S.faults source.old) (S.faults source.new) }
    ensures write { result ≡ Status.WriteFault → Rose (K.faults sink.old) (K.faults sink.new) }
{
    script_laws();
    let Some(word) = wrong_word(words) else {
        return run_script(alloc, source, sink);
    };
    match Bytes::from_slice(alloc, word.as_bytes()) {
        Ok(word) => Status::Usage { word },
        Err(NoMemory) => Status::NoMemory,
    }
}
