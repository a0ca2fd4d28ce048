//! Keepers of rows, of which one is kept from case to case.

use crate::rows::next_row_key;
use case_lines::{CaseFault, Fields, or_memory, tell_bytes};
use keeper_core::{
    Batch, BatchStep, CalmKeeper, KeepFault, Keeper, MapKeeper, Row, RowKey, RowList,
};
use repl_data::{Bytes, Items};
use std::alloc::Global;
use std::fmt::Write;

#[derive(Drop)]
enum Kept {
    Calm(CalmKeeper),
    Map(MapKeeper),
}

#[derive(Drop)]
pub struct KeeperCases {
    kept: Kept,
}

/// The numbers of the next word, with commas between them; none for `-`.
fn next_numbers(alloc: Global, fields: &mut Fields<'_>) -> Result<Items<u64>, CaseFault> {
    let mut numbers = Items::new(alloc);
    let word = fields.word()?;
    if word == "-" {
        return Ok(numbers);
    }
    for part in word.split(',') {
        let number = part.parse::<u64>().ok().ok_or(CaseFault::Argument)?;
        or_memory(numbers.push(number))?;
    }
    Ok(numbers)
}

fn next_step(alloc: Global, fields: &mut Fields<'_>) -> Result<BatchStep, CaseFault> {
    let call = fields.word()?;
    let key = next_row_key(alloc, fields)?;
    match call {
        "put" => {
            let bytes = Bytes::from_vec(fields.bytes(alloc)?);
            Ok(BatchStep::Put { key, bytes })
        }
        "remove" => Ok(BatchStep::Remove { key }),
        _ => Err(CaseFault::Argument),
    }
}

/// The batch of all steps that follow.
fn next_batch(alloc: Global, fields: &mut Fields<'_>) -> Result<Batch, CaseFault> {
    let mut batch = Batch::new(alloc);
    for _ in 0..u16::MAX {
        if fields.is_empty() {
            break;
        }
        or_memory(batch.push(next_step(alloc, fields)?))?;
    }
    Ok(batch)
}

fn put<K: Keeper>(alloc: Global, keeper: &mut K, batch: &Batch) -> Result<(), KeepFault> {
    keeper.put_batch(alloc, batch)
}

fn read<K: Keeper>(alloc: Global, keeper: &mut K) -> Result<RowList, KeepFault> {
    keeper.read_all(alloc)
}

fn tell_key(told: &mut String, key: RowKey) -> Result<(), CaseFault> {
    tell_bytes(told, &[key.kind])?;
    told.push_str(" ")?;
    tell_bytes(told, key.key.as_slice())
}

fn tell_rows(told: &mut String, rows: &[Row]) -> Result<(), CaseFault> {
    let mut between = "";
    for row in rows {
        told.push_str(between)?;
        tell_key(told, row.key)?;
        told.push_str(": ")?;
        tell_bytes(told, row.bytes.as_slice())?;
        between = ", ";
    }
    Ok(())
}

impl KeeperCases {
    pub fn new(alloc: Global) -> KeeperCases {
        KeeperCases {
            kept: Kept::Calm(CalmKeeper::new(alloc)),
        }
    }

    pub fn answer(
        &mut self,
        alloc: Global,
        fields: &mut Fields<'_>,
        told: &mut String,
    ) -> Result<(), CaseFault> {
        match fields.word()? {
            "calm" => self.kept = Kept::Calm(CalmKeeper::new(alloc)),
            "map" => {
                let batches = next_numbers(alloc, fields)?;
                let reads = next_numbers(alloc, fields)?;
                self.kept = Kept::Map(MapKeeper::new(alloc, batches, reads));
            }
            "batch" => return self.put_batch(alloc, fields, told),
            "read" => return self.read_all(alloc, told),
            "rows" => return self.tell_rows(told),
            "counts" => return self.tell_counts(told),
            "fail_batch" => return self.fail_batch(fields, told),
            "compare" => return compare(alloc, fields, told),
            _ => return Err(CaseFault::Subject),
        }
        self.tell_rows(told)
    }

    fn put_batch(
        &mut self,
        alloc: Global,
        fields: &mut Fields<'_>,
        told: &mut String,
    ) -> Result<(), CaseFault> {
        let batch = next_batch(alloc, fields)?;
        let answer = match &mut self.kept {
            Kept::Calm(keeper) => put(alloc, keeper, &batch),
            Kept::Map(keeper) => put(alloc, keeper, &batch),
        };
        write!(told, "{answer:?}")?;
        Ok(())
    }

    /// Tells the rows that a read hands over.
    fn read_all(&mut self, alloc: Global, told: &mut String) -> Result<(), CaseFault> {
        let rows = match &mut self.kept {
            Kept::Calm(keeper) => read(alloc, keeper),
            Kept::Map(keeper) => read(alloc, keeper),
        };
        match rows {
            Ok(rows) => tell_rows(told, rows.as_slice()),
            Err(fault) => {
                write!(told, "{fault:?}")?;
                Ok(())
            }
        }
    }

    /// Tells the rows as they stand, without a read.
    fn tell_rows(&self, told: &mut String) -> Result<(), CaseFault> {
        match &self.kept {
            Kept::Calm(keeper) => tell_rows(told, keeper.rows()),
            Kept::Map(keeper) => tell_rows(told, keeper.rows()),
        }
    }

    /// Tells how many batches were kept, and how many calls failed.
    fn tell_counts(&self, told: &mut String) -> Result<(), CaseFault> {
        let Kept::Map(keeper) = &self.kept else {
            return Err(CaseFault::Argument);
        };
        let (kept, faults) = (keeper.kept(), keeper.faults());
        write!(told, "{kept} kept, {faults} faults")?;
        Ok(())
    }

    fn fail_batch(&mut self, fields: &mut Fields<'_>, told: &mut String) -> Result<(), CaseFault> {
        let number = fields.number()?;
        let Kept::Map(keeper) = &mut self.kept else {
            return Err(CaseFault::Argument);
        };
        or_memory(keeper.fail_batch(number))?;
        self.tell_rows(told)
    }
}

/// Tells how two keys compare.
fn compare(alloc: Global, fields: &mut Fields<'_>, told: &mut String) -> Result<(), CaseFault> {
    let a = next_row_key(alloc, fields)?;
    let b = next_row_key(alloc, fields)?;
    let order = a.compare(b);
    write!(told, "{order:?}")?;
    Ok(())
}
