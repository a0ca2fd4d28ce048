//! The answers of a node in words.

use case_changes::{tell_csn, tell_uid};
use case_lines::CaseFault;
use node_core::{AcquireFault, Applied, ApplyFault, Audit, BeginFault};
use repl_data::Csn;
use std::fmt::Write;

fn tell(told: &mut String, words: &str) -> Result<(), CaseFault> {
    told.push_str(words)?;
    Ok(())
}

/// Tells these CSNs, with spaces between them.
pub fn tell_csns(told: &mut String, csns: &[Csn]) -> Result<(), CaseFault> {
    let mut between = "";
    for csn in csns {
        tell(told, between)?;
        tell_csn(told, *csn)?;
        between = " ";
    }
    Ok(())
}

fn tell_skew(told: &mut String, csn: Csn, now: u32) -> Result<(), CaseFault> {
    tell(told, "more than a day ahead: ")?;
    tell_csn(told, csn)?;
    write!(told, " at {now}")?;
    Ok(())
}

/// Tells what came of an acquire.
pub fn tell_acquired(told: &mut String, answer: Result<(), AcquireFault>) -> Result<(), CaseFault> {
    match answer {
        Ok(()) => tell(told, "taken"),
        Err(AcquireFault::WrongSuffix) => tell(told, "another suffix"),
        Err(AcquireFault::SameId) => tell(told, "its own id"),
        Err(AcquireFault::Busy { rid }) => {
            write!(told, "held by {rid}")?;
            Ok(())
        }
        Err(AcquireFault::Skew { csn, now }) => tell_skew(told, csn, now),
        Err(AcquireFault::NoMemory) => Err(CaseFault::NoMemory),
    }
}

/// Tells what came of an update.
pub fn tell_applied(
    told: &mut String,
    answer: Result<Applied, ApplyFault>,
) -> Result<(), CaseFault> {
    match answer {
        Ok(Applied::Taken) => tell(told, "taken"),
        Ok(Applied::Duplicate) => tell(told, "duplicate"),
        Err(ApplyFault::NotHolder) => tell(told, "not held"),
        Err(ApplyFault::Malformed(why)) => {
            write!(told, "malformed: {why:?}")?;
            Ok(())
        }
        Err(ApplyFault::OwnUnknown { csn }) => {
            tell(told, "its own, and unknown: ")?;
            tell_csn(told, csn)
        }
        Err(ApplyFault::Skew { csn, now }) => tell_skew(told, csn, now),
        Err(ApplyFault::Gap { have, prev }) => {
            tell(told, "gap from ")?;
            tell_csn(told, have)?;
            tell(told, " to ")?;
            tell_csn(told, prev)
        }
        Err(ApplyFault::Missing { id }) => {
            tell(told, "never added: ")?;
            tell_uid(told, id)
        }
        Err(ApplyFault::KeeperFault) => tell(told, "keeper"),
        Err(ApplyFault::NoMemory) => Err(CaseFault::NoMemory),
    }
}

/// Tells the CSN that was drawn, or why none was.
pub fn tell_begun(told: &mut String, answer: Result<Csn, BeginFault>) -> Result<(), CaseFault> {
    match answer {
        Ok(csn) => tell_csn(told, csn),
        Err(BeginFault::Full) => tell(told, "full"),
        Err(BeginFault::Exhausted { last }) => {
            let (time, seq) = last;
            write!(told, "used up at {time}.{seq}")?;
            Ok(())
        }
        Err(BeginFault::NoMemory) => Err(CaseFault::NoMemory),
    }
}

/// Tells what is counted.
pub fn tell_audit(told: &mut String, audit: Audit) -> Result<(), CaseFault> {
    let Audit {
        present,
        glue,
        conflict,
        tombstone,
        taken,
        pending,
    } = audit;
    write!(told, "present {present} glue {glue} conflict {conflict}")?;
    write!(
        told,
        " tombstone {tombstone} taken {taken} pending {pending}"
    )?;
    Ok(())
}

/// Tells `yes` or `no`.
pub fn tell_bool(told: &mut String, is_so: bool) -> Result<(), CaseFault> {
    tell(told, if is_so { "yes" } else { "no" })
}
