//! Why a line is refused, and the text of it.

ghost use Rattle.std.specs.Prelude.{◌≡◌, ◌++◌, IfOk};
ghost use Rattle.std.specs.Fmt.{decimal};
ghost use Rattle.dir_top.specs.Status.{why_text};

use repl_data::{Bytes, NoMemory};
use script_text::number_word;
use std::alloc::Global;

/// Why a line of the script is refused. The reasons are looked for in this order.
#[derive(Clone, Copy, Debug, Drop, Eq, PartialEq)]
pub enum LineWhy {
    /// More than 4,194,400 bytes before the line feed.
    LongLine,
    /// It has none of the forms.
    Grammar,
    /// It is not `nodes` while there are no nodes, or it is a second `nodes`.
    First,
    /// There is no such node.
    Node { n: u16 },
    /// There is no such connection.
    Conn { c: u16 },
    /// The connection is open already.
    ConnTaken { c: u16 },
    /// There is no such ticket.
    Ticket { k: u32 },
    /// The ticket is there already.
    TicketTaken { k: u32 },
    /// No update has this number.
    Update { u: u64 },
    /// The bytes of a `start` are not exactly one whole write without the update control, or the
    /// connection holds a part of a message.
    Request,
    /// A `settle` of a ticket that is not committed, or a `commit` or `abort` of one that is.
    State { k: u32 },
    /// An `offer` without a session.
    Session { a: u16, b: u16 },
}

impl LineWhy {
    /// What the program tells of it.
    pub fn text(&self, alloc: Global) -> Result<Bytes, NoMemory>
        ensures { IfOk result (λ text. text ≡ why_text self.now) }
    {
        match self {
            LineWhy::LongLine => Bytes::from_slice(alloc, b"too long"),
            LineWhy::Grammar => Bytes::from_slice(alloc, b"outside the grammar"),
            LineWhy::First => Bytes::from_slice(alloc, b"nodes must come first and once"),
            LineWhy::Node { n } => numbered(alloc, b"no node ", u64::from(*n), b""),
            LineWhy::Conn { c } => numbered(alloc, b"no connection ", u64::from(*c), b""),
            LineWhy::ConnTaken { c } => {
                numbered(alloc, b"connection ", u64::from(*c), b" is taken")
            }
            LineWhy::Ticket { k } => numbered(alloc, b"no ticket ", u64::from(*k), b""),
            LineWhy::TicketTaken { k } => {
                numbered(alloc, b"ticket ", u64::from(*k), b" is taken")
            }
            LineWhy::Update { u } => numbered(alloc, b"no update ", *u, b""),
            LineWhy::Request => Bytes::from_slice(alloc, b"not one write"),
            LineWhy::State { k } => {
                numbered(alloc, b"ticket ", u64::from(*k), b" is not in that state")
            }
            LineWhy::Session { .. } => Bytes::from_slice(alloc, b"no session"),
        }
    }
}

/// A text with a number in it.
fn numbered(alloc: Global, before: &[u8], number: u64, after: &[u8]) -> Result<Bytes, NoMemory>
    ensures { IfOk result (λ text. text ≡ before.now ++ decimal number ++ after.now) }
{
    let mut text = Bytes::from_slice(alloc, before)?;
    text.append(number_word(alloc, number)?)?;
    text.extend_from_slice(after)?;
    Ok(text)
}
