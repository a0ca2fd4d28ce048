//! The lines of the script, by their words.

ghost use Rattle.std.specs.Prelude.{◌≡◌, Some, None, Err, IfOk, map, [], ◌∷◌};
ghost use Rattle.script_text.specs.Words.{words_of};
ghost use Rattle.script_text.specs.Line.{line_of, line_by_words, line_named, plain_line, ticket_line, session_line, clock_line, connect_line, input_line, start_line, deliver_line, fail_line, node_of, connection_of, ticket_of, one_node, two_nodes, one_ticket};
ghost use Rattle.script_text.specs.Spelling.{Spells};

use crate::words::{bytes_of, number_in, words_of};
use repl_data::{Bytes, NoMemory};
use std::alloc::Global;

/// A line of the script. N, A and B are node numbers from 1 to 8, C is a connection number from 1 to
/// 64, and K a ticket number from 1 to 1,000,000.
#[derive(Drop)]
pub enum Line {
    /// An empty line or a comment: it does nothing.
    Nothing,
    /// `nodes N`: the nodes 1 to N come to be.
    Nodes { n: u16 },
    /// `clock T`: sets the time of all nodes, in seconds since 1970.
    Clock { time: u32 },
    /// `open C N`: opens connection C to node N.
    Connect { c: u16, n: u16 },
    /// `in C HEX`: feeds the bytes to connection C.
    Input { c: u16, bytes: Bytes },
    /// `start K C HEX`: begins ticket K for one whole write request on connection C.
    StartWrite { k: u32, c: u16, bytes: Bytes },
    /// `commit K`
    Commit { k: u32 },
    /// `settle K`
    Settle { k: u32 },
    /// `abort K`
    Abort { k: u32 },
    /// `acquire A B`: node A acquires node B.
    Acquire { a: u16, b: u16 },
    /// `release A B`
    Release { a: u16, b: u16 },
    /// `offer A B`: node A offers its next change to node B.
    Offer { a: u16, b: u16 },
    /// `deliver B U`: applies update U at node B.
    Deliver { b: u16, u: u64 },
    /// `pump A B`: one whole session from A to B.
    Pump { a: u16, b: u16 },
    /// `restart N`
    Restart { n: u16 },
    /// `fail N J`: the J-th batch from now on of node N's keeper fails, J from 1 to 1,000,000.
    Fail { n: u16, j: u32 },
    /// `vector N`: prints the update vector of node N.
    Vector { n: u16 },
    /// `dump N`: prints the entries of node N.
    Dump { n: u16 },
    /// `audit N`: prints the counts of node N.
    Audit { n: u16 },
}

fn node(word: &[u8]) -> Option<u16>
    ensures { result ≡ node_of word.now }
{
    Some(number_in(1, 8, word)? as u16)
}

fn connection(word: &[u8]) -> Option<u16>
    ensures { result ≡ connection_of word.now }
{
    Some(number_in(1, 64, word)? as u16)
}

fn ticket(word: &[u8]) -> Option<u32>
    ensures { result ≡ ticket_of word.now }
{
    Some(number_in(1, 1_000_000, word)? as u32)
}

fn one_node(words: &[&[u8]]) -> Option<u16>
    ensures { result ≡ one_node (map (λ word. word.now) words.now) }
{
    match words {
        [n] => node(n),
        _ => None,
    }
}

fn two_nodes(words: &[&[u8]]) -> Option<(u16, u16)>
    ensures { result ≡ two_nodes (map (λ word. word.now) words.now) }
{
    match words {
        [a, b] => Some((node(a)?, node(b)?)),
        _ => None,
    }
}

fn one_ticket(words: &[&[u8]]) -> Option<u32>
    ensures { result ≡ one_ticket (map (λ word. word.now) words.now) }
{
    match words {
        [k] => ticket(k),
        _ => None,
    }
}

fn clock(words: &[&[u8]]) -> Option<Line>
    ensures { result ≡ clock_line (map (λ word. word.now) words.now) }
{
    match words {
        [time] => Some(Line::Clock {
            time: number_in(0, 4_294_967_295, time)? as u32,
        }),
        _ => None,
    }
}

fn connect(words: &[&[u8]]) -> Option<Line>
    ensures { result ≡ connect_line (map (λ word. word.now) words.now) }
{
    match words {
        [c, n] => Some(Line::Connect {
            c: connection(c)?,
            n: node(n)?,
        }),
        _ => None,
    }
}

fn deliver(words: &[&[u8]]) -> Option<Line>
    ensures { result ≡ deliver_line (map (λ word. word.now) words.now) }
{
    match words {
        [b, u] => Some(Line::Deliver {
            b: node(b)?,
            u: number_in(0, u64::MAX, u)?,
        }),
        _ => None,
    }
}

fn fail(words: &[&[u8]]) -> Option<Line>
    ensures { result ≡ fail_line (map (λ word. word.now) words.now) }
{
    match words {
        [n, j] => Some(Line::Fail {
            n: node(n)?,
            j: number_in(1, 1_000_000, j)? as u32,
        }),
        _ => None,
    }
}

fn input(alloc: Global, words: &[&[u8]]) -> Result<Option<Line>, NoMemory>
    ensures { IfOk result (λ line. line ≡ input_line (map (λ word. word.now) words.now)) }
{
    match words {
        [c, bytes] => input_of(alloc, c, bytes),
        _ => Ok(None),
    }
}

fn input_of(alloc: Global, c: &[u8], bytes: &[u8]) -> Result<Option<Line>, NoMemory>
    ensures { IfOk result (λ line. line ≡ input_line (c.now ∷ bytes.now ∷ [])) }
{
    let Some(c) = connection(c) else {
        return Ok(None);
    };
    let Some(bytes) = bytes_of(alloc, bytes)? else {
        return Ok(None);
    };
    Ok(Some(Line::Input { c, bytes }))
}

fn start(alloc: Global, words: &[&[u8]]) -> Result<Option<Line>, NoMemory>
    ensures { IfOk result (λ line. line ≡ start_line (map (λ word. word.now) words.now)) }
{
    match words {
        [k, c, bytes] => start_of(alloc, k, c, bytes),
        _ => Ok(None),
    }
}

fn start_of(alloc: Global, k: &[u8], c: &[u8], bytes: &[u8]) -> Result<Option<Line>, NoMemory>
    ensures { IfOk result (λ line. line ≡ start_line (k.now ∷ c.now ∷ bytes.now ∷ [])) }
{
    let Some(k) = ticket(k) else {
        return Ok(None);
    };
    let Some(c) = connection(c) else {
        return Ok(None);
    };
    let Some(bytes) = bytes_of(alloc, bytes)? else {
        return Ok(None);
    };
    Ok(Some(Line::StartWrite { k, c, bytes }))
}

/// The lines on two nodes.
fn session_line(name: &[u8], words: &[&[u8]]) -> Option<Line>
    ensures { result ≡ session_line name.now (map (λ word. word.now) words.now) }
{
    if name == b"deliver".as_slice() {
        return deliver(words);
    }
    if name == b"acquire".as_slice() {
        let (a, b) = two_nodes(words)?;
        return Some(Line::Acquire { a, b });
    }
    if name == b"release".as_slice() {
        let (a, b) = two_nodes(words)?;
        return Some(Line::Release { a, b });
    }
    if name == b"offer".as_slice() {
        let (a, b) = two_nodes(words)?;
        return Some(Line::Offer { a, b });
    }
    if name == b"pump".as_slice() {
        let (a, b) = two_nodes(words)?;
        return Some(Line::Pump { a, b });
    }
    None
}

/// The lines on a ticket, and then those on two nodes.
fn ticket_line(name: &[u8], words: &[&[u8]]) -> Option<Line>
    ensures { result ≡ ticket_line name.now (map (λ word. word.now) words.now) }
{
    if name == b"commit".as_slice() {
        return Some(Line::Commit {
            k: one_ticket(words)?,
        });
    }
    if name == b"settle".as_slice() {
        return Some(Line::Settle {
            k: one_ticket(words)?,
        });
    }
    if name == b"abort".as_slice() {
        return Some(Line::Abort {
            k: one_ticket(words)?,
        });
    }
    session_line(name, words)
}

/// The lines without bytes.
fn plain_line(name: &[u8], words: &[&[u8]]) -> Option<Line>
    ensures { result ≡ plain_line name.now (map (λ word. word.now) words.now) }
{
    if name == b"nodes".as_slice() {
        return Some(Line::Nodes {
            n: one_node(words)?,
        });
    }
    if name == b"clock".as_slice() {
        return clock(words);
    }
    if name == b"open".as_slice() {
        return connect(words);
    }
    if name == b"restart".as_slice() {
        return Some(Line::Restart {
            n: one_node(words)?,
        });
    }
    if name == b"fail".as_slice() {
        return fail(words);
    }
    if name == b"vector".as_slice() {
        return Some(Line::Vector {
            n: one_node(words)?,
        });
    }
    if name == b"dump".as_slice() {
        return Some(Line::Dump {
            n: one_node(words)?,
        });
    }
    if name == b"audit".as_slice() {
        return Some(Line::Audit {
            n: one_node(words)?,
        });
    }
    ticket_line(name, words)
}

/// The line whose first word is the name, if it has one of the forms.
fn line_named(alloc: Global, name: &[u8], words: &[&[u8]]) -> Result<Option<Line>, NoMemory>
    ensures { IfOk result (λ line. line ≡ line_named name.now (map (λ word. word.now) words.now)) }
{
    if name == b"in".as_slice() {
        return input(alloc, words);
    }
    if name == b"start".as_slice() {
        return start(alloc, words);
    }
    Ok(plain_line(name, words))
}

fn line_by_words(alloc: Global, words: &[&[u8]]) -> Result<Option<Line>, NoMemory>
    ensures { IfOk result (λ line. line ≡ line_by_words (map (λ word. word.now) words.now)) }
{
    match words {
        [] => Ok(None),
        [name, others @ ..] => line_named(alloc, name, others),
    }
}

/// The line that the text is written as, if it has one of the forms.
fn line_in(alloc: Global, text: &[u8]) -> Result<Option<Line>, NoMemory>
    ensures { IfOk result (λ line. line ≡ line_of text.now) }
{
    match text {
        [] => Ok(Some(Line::Nothing)),
        [b'#', ..] => Ok(Some(Line::Nothing)),
        _ => read_words(alloc, text),
    }
}

fn read_words(alloc: Global, text: &[u8]) -> Result<Option<Line>, NoMemory>
    ensures { IfOk result (λ line. line ≡ line_by_words (words_of text.now)) }
{
    let words = words_of(alloc, text)?;
    line_by_words(alloc, words.as_slice())
}

/// Why a line is not read.
#[derive(Clone, Copy, Debug, Drop, Eq, PartialEq)]
pub enum LineFault {
    NoMemory,
    /// It has none of the forms, or a number outside its range.
    BadLine,
}

/// The line that the text is read as.
fn line_at(alloc: Global, text: &[u8]) -> Result<Line, LineFault>
    ensures read { IfOk result (λ line. line_of text.now ≡ Some line) }
    ensures none { result ≡ Err LineFault.BadLine → line_of text.now ≡ None }
{
    let Ok(line) = line_in(alloc, text) else {
        return Err(LineFault::NoMemory);
    };
    match line {
        Some(line) => Ok(line),
        None => Err(LineFault::BadLine),
    }
}

/// Reads a line of the script. The text has no line feed, and no carriage return that stood before
/// one.
///
/// One pass over the text; the memory that it takes is in proportion to it.
pub fn read_line(alloc: Global, text: &[u8]) -> Result<Line, LineFault>
    // A line is read from a text that spells it, and refused where the text spells none.
    ensures found { IfOk result (λ line. Spells text.now line) }
    ensures outside { result ≡ Err LineFault.BadLine → (line : Line) → Spells text.now line → ⊥ }

    // The same by the words of the text: this one line and no other.
    ensures read { IfOk result (λ line. line_of text.now ≡ Some line) }
    ensures none { result ≡ Err LineFault.BadLine → line_of text.now ≡ None }
{
    line_at(alloc, text)
}
