//! Why no message was read.

use case_lines::CaseFault;
use ldap_requests::ReadFault;
use std::fmt::Write;

/// Appends why no message was read. That memory ran out answers no case.
pub fn tell_fault(told: &mut String, fault: ReadFault) -> Result<(), CaseFault> {
    match fault {
        ReadFault::NoMemory => Err(CaseFault::NoMemory),
        ReadFault::More => {
            told.push_str("more")?;
            Ok(())
        }
        ReadFault::NotLdap { place, why } => {
            write!(told, "at {place} {why:?}")?;
            Ok(())
        }
    }
}
