//! A block of a file.

use crate::notation::add_line;
use std::alloc::{AllocError, Global};

/// The part of a block that a line stands in.
#[derive(Clone, Copy)]
enum Part {
    Head,
    Script,
    Each,
    Then,
    Output,
    /// None that there is.
    Unknown,
}

fn part_of(word: &str) -> Part {
    match word {
        "script" => Part::Script,
        "each" => Part::Each,
        "then" => Part::Then,
        "output" => Part::Output,
        _ => Part::Unknown,
    }
}

/// Scripts that are to end in the same way.
#[derive(Drop)]
pub struct Block<'a> {
    /// What they show.
    pub name: &'a str,
    /// The words of the command line.
    pub words: &'a str,
    /// How many bytes the source hands over at most in one call: each script runs once for each.
    pub pieces: &'a str,
    /// The reads that fail, counted from 1.
    pub reads: &'a str,
    /// The writes that fail.
    pub writes: &'a str,
    /// How many bytes a write that fails still takes.
    pub keeping: &'a str,
    /// The number and the text of the status.
    pub status: &'a str,
    pub script: String,
    /// The last lines: one script for each, or the script alone where there are none.
    pub lasts: Vec<&'a str>,
    /// The lines behind each last line, for one more script.
    pub then: String,
    pub output: String,
    /// A line that has no meaning, if there is one.
    pub fault: Option<&'a str>,
}

impl<'a> Block<'a> {
    fn new(alloc: Global, name: &'a str) -> Block<'a> {
        Block {
            name,
            words: "exec",
            pieces: "1 5 4096",
            reads: "",
            writes: "",
            keeping: "",
            status: "",
            script: String::new(alloc),
            lasts: Vec::new(alloc),
            then: String::new(alloc),
            output: String::new(alloc),
            fault: None,
        }
    }

    /// The block of this text.
    pub fn read(alloc: Global, text: &'a str) -> Result<Block<'a>, AllocError> {
        let mut lines = text.lines();
        let mut block = Block::new(alloc, lines.next().unwrap_or(""));
        let mut part = Part::Head;
        for line in lines {
            match line.strip_prefix("--- ") {
                Some(word) => part = part_of(word),
                None => block.take(part, line)?,
            }
        }
        Ok(block)
    }

    /// Takes a line that stands in this part.
    fn take(&mut self, part: Part, line: &'a str) -> Result<(), AllocError> {
        let is_known = match part {
            Part::Head => self.set(line),
            Part::Script => add_line(&mut self.script, line)?,
            Part::Each => {
                self.lasts.push(line)?;
                true
            }
            Part::Then => add_line(&mut self.then, line)?,
            Part::Output => add_line(&mut self.output, line)?,
            Part::Unknown => false,
        };
        if !is_known {
            self.fault = Some(line);
        }
        Ok(())
    }

    /// Takes a line of the head, and tells whether it is one.
    fn set(&mut self, line: &'a str) -> bool {
        let Some((key, value)) = line.split_once(' ') else {
            return false;
        };
        let value = value.strip_suffix('|').unwrap_or(value);
        match key {
            "words" => self.words = value,
            "pieces" => self.pieces = value,
            "reads" => self.reads = value,
            "writes" => self.writes = value,
            "keeping" => self.keeping = value,
            "status" => self.status = value,
            _ => return false,
        }
        true
    }
}
