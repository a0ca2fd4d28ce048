//! What a node draws, and the CSNs that are pending.

ghost use Rattle.std.specs.Prelude.{IsTrue};
ghost use Rattle.pending_core.specs.Pending.{IsAbove};

use case_changes::{next_csn, tell_csn};
use case_lines::{CaseFault, Fields, or_memory};
use pending_core::{Generator, PendingList};
use repl_data::Csn;
use std::alloc::Global;
use std::fmt::Write;

/// Tells the next draw of a generator at the time and sequence number, at a time, and where the
/// generator stands then; or where it stands when a CSN has raised it.
pub fn generator(fields: &mut Fields<'_>, told: &mut String) -> Result<(), CaseFault> {
    let call = fields.word()?;
    let time = number32(fields)?;
    let seq = fields
        .word()?
        .parse::<u16>()
        .ok()
        .ok_or(CaseFault::Argument)?;
    let mut generator = Generator { time, seq };
    match call {
        "next" => {
            let drawn = generator.next(number32(fields)?);
            write!(told, "{drawn:?}, ")?;
        }
        "raise" => generator.raise(next_csn(fields)?),
        _ => return Err(CaseFault::Subject),
    }
    let (time, seq) = (generator.time, generator.seq);
    write!(told, "at {time} {seq}")?;
    Ok(())
}

fn number32(fields: &mut Fields<'_>) -> Result<u32, CaseFault> {
    fields
        .word()?
        .parse::<u32>()
        .ok()
        .ok_or(CaseFault::Argument)
}

/// The pending CSNs that are kept from case to case.
#[derive(Drop)]
pub struct PendingCases {
    list: PendingList,
}

/// The CSN is above each of these.
fn is_above(held: &[Csn], csn: Csn) -> bool
    ensures { IsTrue result → IsAbove held.now csn }
{
    held.iter().all(|c| c.compare(csn).is_lt())
}

/// Begins a CSN, if it is above all that are held.
fn try_begin(list: &mut PendingList, csn: Csn) -> &'static str {
    if !is_above(list.as_slice(), csn) {
        return "not above, ";
    }
    match list.begin(csn) {
        Ok(()) => "ok, ",
        Err(_) => "full, ",
    }
}

impl PendingCases {
    pub fn new(alloc: Global) -> Result<PendingCases, CaseFault> {
        let list = or_memory(PendingList::new(alloc))?;
        Ok(PendingCases { list })
    }

    pub fn answer(
        &mut self,
        alloc: Global,
        fields: &mut Fields<'_>,
        told: &mut String,
    ) -> Result<(), CaseFault> {
        match fields.word()? {
            "new" => self.list = or_memory(PendingList::new(alloc))?,
            "begin" => told.push_str(try_begin(&mut self.list, next_csn(fields)?))?,
            "fill" => self.fill(fields)?,
            "settle" => return self.take(fields, told, false),
            "abort" => return self.take(fields, told, true),
            "replace" => return self.replace(fields, told),
            "contains" => return self.contains(fields, told),
            "front" => return self.front(told),
            _ => return Err(CaseFault::Subject),
        }
        self.tell_len(told)
    }

    /// Begins so many CSNs with sequence numbers from 0 on.
    fn fill(&mut self, fields: &mut Fields<'_>) -> Result<(), CaseFault> {
        let count = fields
            .word()?
            .parse::<u16>()
            .ok()
            .ok_or(CaseFault::Argument)?;
        for seq in 0..count {
            let csn = Csn {
                time: 100,
                seq,
                rid: 1,
                sub: 0,
            };
            try_begin(&mut self.list, csn);
        }
        Ok(())
    }

    fn tell_len(&self, told: &mut String) -> Result<(), CaseFault> {
        let len = self.list.len();
        let (empty, full) = (self.list.is_empty(), self.list.is_full());
        write!(told, "{len}, empty: {empty}, full: {full}")?;
        Ok(())
    }

    /// Settles or aborts a CSN, if it is held.
    fn take(
        &mut self,
        fields: &mut Fields<'_>,
        told: &mut String,
        aborts: bool,
    ) -> Result<(), CaseFault> {
        let csn = next_csn(fields)?;
        if !self.list.contains(csn) {
            return Err(CaseFault::Argument);
        }
        if aborts {
            self.list.abort(csn);
        } else {
            self.list.settle(csn);
        }
        self.tell_len(told)
    }

    /// Replaces a CSN, if it is held and the other is above all.
    fn replace(&mut self, fields: &mut Fields<'_>, told: &mut String) -> Result<(), CaseFault> {
        let old = next_csn(fields)?;
        let new = next_csn(fields)?;
        if !self.list.contains(old) {
            return Err(CaseFault::Argument);
        }
        if !is_above(self.list.as_slice(), new) {
            return Err(CaseFault::Argument);
        }
        self.list.replace(old, new);
        self.tell_len(told)
    }

    fn contains(&self, fields: &mut Fields<'_>, told: &mut String) -> Result<(), CaseFault> {
        let held = self.list.contains(next_csn(fields)?);
        write!(told, "{held}")?;
        Ok(())
    }

    fn front(&self, told: &mut String) -> Result<(), CaseFault> {
        match self.list.front() {
            Some(csn) => tell_csn(told, csn),
            None => {
                told.push_str("none")?;
                Ok(())
            }
        }
    }
}
