//! A list of bytes that is kept from case to case.

ghost use Rattle.std.specs.Prelude.{◌<◌, IfOk};

use case_lines::{CaseFault, Fields, or_memory, tell_text};
use repl_data::Bytes;
use std::alloc::Global;
use std::fmt::Write;

#[derive(Drop)]
pub struct ItemCases {
    bytes: Bytes,
}

/// The only byte of the next word.
fn next_byte(alloc: Global, fields: &mut Fields<'_>) -> Result<u8, CaseFault> {
    let bytes = fields.bytes(alloc)?;
    bytes.as_slice().first().copied().ok_or(CaseFault::Argument)
}

/// A place, which has to be below `end`.
fn next_place(fields: &mut Fields<'_>, end: usize) -> Result<usize, CaseFault>
    ensures { IfOk result (λ at. at < end) }
{
    let place = fields.number()? as usize;
    if place < end {
        Ok(place)
    } else {
        Err(CaseFault::Argument)
    }
}

impl ItemCases {
    pub fn new(alloc: Global) -> ItemCases {
        ItemCases {
            bytes: Bytes::new(alloc),
        }
    }

    pub fn answer(
        &mut self,
        alloc: Global,
        fields: &mut Fields<'_>,
        told: &mut String,
    ) -> Result<(), CaseFault> {
        match fields.word()? {
            "from_slice" => self.begin(alloc, fields)?,
            "get" => return self.get(fields, told),
            "len" => return self.len(told),
            "push" => or_memory(self.bytes.push(next_byte(alloc, fields)?))?,
            "extend" => self.extend(alloc, fields)?,
            "append" => self.append(alloc, fields)?,
            "insert" => self.insert(alloc, fields)?,
            "set" => self.set(alloc, fields)?,
            "remove" => self.remove(fields)?,
            "copy" => self.bytes = Bytes::from_vec(self.bytes.clone()?.into_vec()),
            "clear" => self.bytes.clear(),
            _ => return Err(CaseFault::Subject),
        }
        tell_text(told, self.bytes.as_slice())
    }

    fn get(&self, fields: &mut Fields<'_>, told: &mut String) -> Result<(), CaseFault> {
        let place = fields.number()? as usize;
        let item = self.bytes.get(place);
        write!(told, "{item:?}")?;
        Ok(())
    }

    fn len(&self, told: &mut String) -> Result<(), CaseFault> {
        let len = self.bytes.len();
        let empty = self.bytes.is_empty();
        write!(told, "{len}, empty: {empty}")?;
        Ok(())
    }

    fn begin(&mut self, alloc: Global, fields: &mut Fields<'_>) -> Result<(), CaseFault> {
        let bytes = fields.bytes(alloc)?;
        self.bytes = or_memory(Bytes::from_slice(alloc, bytes.as_slice()))?;
        Ok(())
    }

    fn extend(&mut self, alloc: Global, fields: &mut Fields<'_>) -> Result<(), CaseFault> {
        let bytes = fields.bytes(alloc)?;
        or_memory(self.bytes.extend_from_slice(bytes.as_slice()))
    }

    fn append(&mut self, alloc: Global, fields: &mut Fields<'_>) -> Result<(), CaseFault> {
        let bytes = fields.bytes(alloc)?;
        or_memory(self.bytes.append(Bytes::from_vec(bytes)))
    }

    fn insert(&mut self, alloc: Global, fields: &mut Fields<'_>) -> Result<(), CaseFault> {
        let place = fields.number()? as usize;
        let byte = next_byte(alloc, fields)?;
        if place > self.bytes.len() {
            return Err(CaseFault::Argument);
        }
        or_memory(self.bytes.insert(place, byte))
    }

    fn set(&mut self, alloc: Global, fields: &mut Fields<'_>) -> Result<(), CaseFault> {
        let place = next_place(fields, self.bytes.len())?;
        let byte = next_byte(alloc, fields)?;
        self.bytes.set(place, byte);
        Ok(())
    }

    fn remove(&mut self, fields: &mut Fields<'_>) -> Result<(), CaseFault> {
        let place = next_place(fields, self.bytes.len())?;
        self.bytes.remove(place);
        Ok(())
    }
}
