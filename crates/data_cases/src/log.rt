//! A changelog that is kept from case to case.

use crate::vectors::next_vector;
use case_changes::{next_change, next_csn, tell_csn};
use case_lines::{CaseFault, Fields, or_memory};
use change_log::ChangeLog;
use repl_data::Change;
use std::alloc::Global;
use std::fmt::Write;

#[derive(Drop)]
pub struct LogCases {
    log: ChangeLog,
}

fn tell_found(told: &mut String, found: Option<&Change>) -> Result<(), CaseFault> {
    match found {
        Some(change) => tell_csn(told, change.csn),
        None => {
            told.push_str("none")?;
            Ok(())
        }
    }
}

impl LogCases {
    pub fn new(alloc: Global) -> Result<LogCases, CaseFault> {
        let log = or_memory(ChangeLog::new(alloc))?;
        Ok(LogCases { log })
    }

    pub fn answer(
        &mut self,
        alloc: Global,
        fields: &mut Fields<'_>,
        told: &mut String,
    ) -> Result<(), CaseFault> {
        match fields.word()? {
            "new" => self.log = or_memory(ChangeLog::new(alloc))?,
            "reserve" => or_memory(self.log.reserve(alloc, fields.number()? as usize))?,
            "append" => told.push_str(self.append(next_change(alloc, fields)?))?,
            "get" => return tell_found(told, self.log.get(fields.number()? as usize)),
            "prev" => return tell_csn(told, self.log.prev(next_csn(fields)?)),
            "next_beyond" => return self.next(alloc, fields, told),
            _ => return Err(CaseFault::Subject),
        }
        self.tell_len(told)
    }

    /// Appends a change, if it is new and there is a place.
    fn append(&mut self, change: Change) -> &'static str {
        if self.log.spare() == 0 {
            return "no place, ";
        }
        if self.log.contains(change.csn) {
            return "known, ";
        }
        self.log.append(change);
        "taken, "
    }

    fn tell_len(&self, told: &mut String) -> Result<(), CaseFault> {
        let (len, spare, empty) = (self.log.len(), self.log.spare(), self.log.is_empty());
        write!(told, "{len} changes, {spare} spare, empty: {empty}")?;
        Ok(())
    }

    /// Tells the change of least CSN beyond the first vector and within the second.
    fn next(
        &self,
        alloc: Global,
        fields: &mut Fields<'_>,
        told: &mut String,
    ) -> Result<(), CaseFault> {
        let beyond = next_vector(alloc, fields)?;
        let limit = next_vector(alloc, fields)?;
        tell_found(told, self.log.next_beyond(&beyond, &limit))
    }
}
