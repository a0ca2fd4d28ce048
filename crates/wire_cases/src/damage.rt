//! One byte of a message is another one.

use case_lines::{CaseFault, Fields};
use ldap_requests::{ReadFault, read_request};
use ldap_types::Request;
use repl_wire::{WireFault, read_end};
use std::alloc::Global;
use std::fmt::Write;

/// What comes of the bytes.
#[derive(Clone, Copy, Debug, Eq, PartialEq)]
enum Outcome {
    /// They begin with an end.
    End,
    /// They begin with another request.
    Other,
    /// They begin with none.
    Fault,
    /// More are wanted.
    More,
}

fn of_request(alloc: Global, request: &Request) -> Result<Outcome, CaseFault> {
    match read_end(alloc, request) {
        Ok(_) => Ok(Outcome::End),
        Err(WireFault::NoMemory) => Err(CaseFault::NoMemory),
        Err(WireFault::Bad { .. }) => Ok(Outcome::Other),
    }
}

fn of_fault(fault: ReadFault) -> Result<Outcome, CaseFault> {
    match fault {
        ReadFault::NoMemory => Err(CaseFault::NoMemory),
        ReadFault::More => Ok(Outcome::More),
        ReadFault::NotLdap { .. } => Ok(Outcome::Fault),
    }
}

fn comes_of(alloc: Global, bytes: &[u8]) -> Result<Outcome, CaseFault> {
    match read_request(alloc, bytes) {
        Ok((request, _size)) => of_request(alloc, &request),
        Err(fault) => of_fault(fault),
    }
}

/// How often each outcome came.
#[derive(Debug, Drop)]
struct Counts {
    ends: u32,
    others: u32,
    faults: u32,
    more: u32,
}

impl Counts {
    fn add(&mut self, outcome: Outcome) {
        match outcome {
            Outcome::End => self.ends = self.ends.saturating_add(1),
            Outcome::Other => self.others = self.others.saturating_add(1),
            Outcome::Fault => self.faults = self.faults.saturating_add(1),
            Outcome::More => self.more = self.more.saturating_add(1),
        }
    }

    fn tell(&self, told: &mut String) -> Result<(), CaseFault> {
        let (ends, others) = (self.ends, self.others);
        let (faults, more) = (self.faults, self.more);
        write!(
            told,
            "{ends} ends, {others} others, {faults} faults, {more} more"
        )?;
        Ok(())
    }
}

fn put(bytes: &mut [u8], place: usize, byte: u8) {
    if let Some(slot) = bytes.get_mut(place) {
        *slot = byte;
    }
}

fn damage_by(
    alloc: Global,
    bytes: &mut [u8],
    place: usize,
    byte: u8,
    counts: &mut Counts,
) -> Result<(), CaseFault> {
    put(bytes, place, byte);
    counts.add(comes_of(alloc, bytes)?);
    Ok(())
}

/// Counts the outcomes of each of the 255 other bytes at this place.
fn damage_at(
    alloc: Global,
    bytes: &mut [u8],
    place: usize,
    counts: &mut Counts,
) -> Result<(), CaseFault> {
    let Some(good) = bytes.get(place).copied() else {
        return Err(CaseFault::Argument);
    };
    for byte in 0..=u8::MAX {
        if byte != good {
            damage_by(alloc, bytes, place, byte, counts)?;
        }
    }
    put(bytes, place, good);
    Ok(())
}

fn damage_each(
    alloc: Global,
    bytes: &mut [u8],
    first: u16,
    last: u16,
    counts: &mut Counts,
) -> Result<(), CaseFault> {
    for place in first..=last {
        damage_at(alloc, bytes, place as usize, counts)?;
    }
    Ok(())
}

fn next_place(fields: &mut Fields<'_>) -> Result<u16, CaseFault> {
    match fields.word()?.parse::<u16>() {
        Ok(place) => Ok(place),
        Err(_) => Err(CaseFault::Argument),
    }
}

/// The first place and the last one of those that are damaged, and the bytes of an end.
pub fn end(alloc: Global, fields: &mut Fields<'_>, told: &mut String) -> Result<(), CaseFault> {
    let first = next_place(fields)?;
    let last = next_place(fields)?;
    let mut bytes = fields.bytes(alloc)?;
    let mut counts = Counts {
        ends: 0,
        others: 0,
        faults: 0,
        more: 0,
    };
    damage_each(alloc, bytes.as_mut_slice(), first, last, &mut counts)?;
    counts.tell(told)
}
