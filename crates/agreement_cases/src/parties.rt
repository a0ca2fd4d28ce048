//! Between whom a session is.
//!
//! - `supplier is RID SUFFIX`: a supplier with this replica id and this suffix, and its consumer. Neither has said
//!   anything yet.
//! - `supplier offers PREV CHANGE`: the supplier has one update more.
//! - `supplier says BYTES`: its next message, as the session has to write it.
//! - `consumer answers BYTES`: the next reply.

use case_changes::{next_change, next_csn};
use case_lines::{CaseFault, Fields, or_memory};
use repl_data::{AvaList, Bytes, BytesList, Items, Rdn, Suffix, Update};
use std::alloc::Global;

/// A supplier and its consumer.
#[derive(Debug, Drop)]
pub struct Parties {
    pub rid: u16,
    pub suffix: Suffix,
    /// What the supplier has, in rising order of CSN.
    pub updates: Items<Update>,
    /// The messages that it has to send, in order.
    pub says: BytesList,
    /// The replies that the stream brings, in order.
    pub answers: BytesList,
}

/// The suffix with this name. A session looks at no more of it.
fn named(alloc: Global, name: Bytes) -> Suffix {
    let avas = AvaList::new(alloc);
    Suffix {
        name,
        rdn: Rdn { avas },
    }
}

fn push_bytes(
    alloc: Global,
    list: &mut BytesList,
    fields: &mut Fields<'_>,
) -> Result<(), CaseFault> {
    let bytes = Bytes::from_vec(fields.bytes(alloc)?);
    or_memory(list.push(bytes))
}

impl Parties {
    /// Replica 1, with an empty suffix.
    pub fn new(alloc: Global) -> Parties {
        Parties {
            rid: 1,
            suffix: named(alloc, Bytes::new(alloc)),
            updates: Items::new(alloc),
            says: Items::new(alloc),
            answers: Items::new(alloc),
        }
    }

    fn rename(&mut self, alloc: Global, fields: &mut Fields<'_>) -> Result<(), CaseFault> {
        self.rid = fields
            .word()?
            .parse::<u16>()
            .ok()
            .ok_or(CaseFault::Argument)?;
        self.suffix = named(alloc, Bytes::from_vec(fields.bytes(alloc)?));
        self.updates.clear();
        self.says.clear();
        self.answers.clear();
        Ok(())
    }

    fn offer(&mut self, alloc: Global, fields: &mut Fields<'_>) -> Result<(), CaseFault> {
        let prev = next_csn(fields)?;
        let change = next_change(alloc, fields)?;
        or_memory(self.updates.push(Update { change, prev }))
    }

    pub fn supplier(&mut self, alloc: Global, fields: &mut Fields<'_>) -> Result<(), CaseFault> {
        match fields.word()? {
            "is" => self.rename(alloc, fields),
            "offers" => self.offer(alloc, fields),
            "says" => push_bytes(alloc, &mut self.says, fields),
            _ => Err(CaseFault::Argument),
        }
    }

    pub fn consumer(&mut self, alloc: Global, fields: &mut Fields<'_>) -> Result<(), CaseFault> {
        match fields.word()? {
            "answers" => push_bytes(alloc, &mut self.answers, fields),
            _ => Err(CaseFault::Argument),
        }
    }

    /// The bytes of the replies, with these in place of the one with this number, counted from 1.
    pub fn brought(&self, alloc: Global, place: u64, other: &[u8]) -> Result<Vec<u8>, CaseFault> {
        let mut bytes = Vec::new(alloc);
        let mut number = 0u64;
        for answer in self.answers.as_slice() {
            number = number.saturating_add(1);
            let piece = if number == place {
                other
            } else {
                answer.as_slice()
            };
            bytes.extend_from_slice(piece)?;
        }
        Ok(bytes)
    }
}
