//! How a line of the script is written.

ghost use Rattle.std.specs.Prelude.{◌≡◌, ◌++◌, ◌∷◌, [], IfOk};
ghost use Rattle.std.specs.Fmt.{decimal};
ghost use Rattle.hex.specs.Hex.{encode_lower};
ghost use Rattle.script_text.specs.Spelling.{line_words, line_digits, line_text};

use crate::line::Line;
use crate::parts::{with_one, with_two};
use crate::print::{hexadecimal_word, put_words};
use repl_data::{Bytes, BytesList, Items, NoMemory};
use std::alloc::Global;

fn with_bytes(alloc: Global, mut words: BytesList, bytes: &[u8]) -> Result<BytesList, NoMemory>
    ensures { IfOk result (λ all. all ≡ words ++ encode_lower bytes.now ∷ []) }
{
    words.push(hexadecimal_word(alloc, bytes)?)?;
    Ok(words)
}

fn with_node(alloc: Global, name: &[u8], n: u16) -> Result<BytesList, NoMemory>
    ensures { IfOk result (λ words. words ≡ name.now ∷ decimal n ∷ []) }
{
    with_one(alloc, name, u64::from(n))
}

fn with_ticket(alloc: Global, name: &[u8], k: u32) -> Result<BytesList, NoMemory>
    ensures { IfOk result (λ words. words ≡ name.now ∷ decimal k ∷ []) }
{
    with_one(alloc, name, u64::from(k))
}

fn with_nodes(alloc: Global, name: &[u8], a: u16, b: u16) -> Result<BytesList, NoMemory>
    ensures { IfOk result (λ words. words ≡ name.now ∷ decimal a ∷ decimal b ∷ []) }
{
    with_two(alloc, name, u64::from(a), u64::from(b))
}

fn input_words(alloc: Global, c: u16, bytes: &[u8]) -> Result<BytesList, NoMemory>
    ensures { IfOk result (λ words. words ≡ line_words (encode_lower bytes.now) (Line.Input c bytes.now)) }
{
    let words = with_one(alloc, b"in", u64::from(c))?;
    with_bytes(alloc, words, bytes)
}

fn start_words(alloc: Global, k: u32, c: u16, bytes: &[u8]) -> Result<BytesList, NoMemory>
    ensures { IfOk result (λ words. words ≡ line_words (encode_lower bytes.now) (Line.StartWrite k c bytes.now)) }
{
    let words = with_two(alloc, b"start", u64::from(k), u64::from(c))?;
    with_bytes(alloc, words, bytes)
}

/// The words of a line.
fn words_of(alloc: Global, line: &Line) -> Result<BytesList, NoMemory>
    ensures { IfOk result (λ words. words ≡ line_words (line_digits line.now) line.now) }
{
    match line {
        Line::Nothing => Ok(Items::new(alloc)),
        Line::Nodes { n } => with_node(alloc, b"nodes", *n),
        Line::Clock { time } => with_ticket(alloc, b"clock", *time),
        Line::Connect { c, n } => with_nodes(alloc, b"open", *c, *n),
        Line::Input { c, bytes } => input_words(alloc, *c, bytes.as_slice()),
        Line::StartWrite { k, c, bytes } => start_words(alloc, *k, *c, bytes.as_slice()),
        Line::Commit { k } => with_ticket(alloc, b"commit", *k),
        Line::Settle { k } => with_ticket(alloc, b"settle", *k),
        Line::Abort { k } => with_ticket(alloc, b"abort", *k),
        Line::Acquire { a, b } => with_nodes(alloc, b"acquire", *a, *b),
        Line::Release { a, b } => with_nodes(alloc, b"release", *a, *b),
        Line::Offer { a, b } => with_nodes(alloc, b"offer", *a, *b),
        Line::Deliver { b, u } => with_two(alloc, b"deliver", u64::from(*b), *u),
        Line::Pump { a, b } => with_nodes(alloc, b"pump", *a, *b),
        Line::Restart { n } => with_node(alloc, b"restart", *n),
        Line::Fail { n, j } => with_two(alloc, b"fail", u64::from(*n), u64::from(*j)),
        Line::Vector { n } => with_node(alloc, b"vector", *n),
        Line::Dump { n } => with_node(alloc, b"dump", *n),
        Line::Audit { n } => with_node(alloc, b"audit", *n),
    }
}

/// The text of the line: its words with a space between each two, without a line feed. Bytes are
/// written in lower case. A line that does nothing is the empty text.
pub fn write_line(alloc: Global, line: &Line) -> Result<Bytes, NoMemory>
    ensures { IfOk result (λ text. text ≡ line_text line.now) }
{
    let words = words_of(alloc, line)?;
    let mut text = Bytes::new(alloc);
    put_words(&mut text, words.as_slice())?;
    Ok(text)
}
