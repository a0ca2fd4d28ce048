//! The arguments of a case, taken one after the other.

use crate::fault::CaseFault;
use crate::notation::read_bytes;
use crate::scan::find_bare;
use std::alloc::Global;
use std::str;

/// The arguments that are not taken yet.
#[derive(Clone, Copy, Debug)]
pub struct Fields<'a> {
    rest: &'a [u8],
}

impl<'a> Fields<'a> {
    /// The words of this text.
    pub fn new(text: &'a [u8]) -> Fields<'a> {
        Fields {
            rest: text.trim_ascii(),
        }
    }

    /// Whether all are taken.
    pub fn is_empty(&self) -> bool {
        self.rest.is_empty()
    }

    /// The next word, as it stands.
    pub fn word(&mut self) -> Result<&'a str, CaseFault> {
        let Ok(word) = str::from_utf8(self.raw_word()) else {
            return Err(CaseFault::Argument);
        };
        if word.is_empty() {
            return Err(CaseFault::Argument);
        }
        Ok(word)
    }

    /// The next word, which is a decimal number.
    pub fn number(&mut self) -> Result<u64, CaseFault> {
        let word = self.word()?;
        match word.parse::<u64>() {
            Ok(number) => Ok(number),
            Err(_) => Err(CaseFault::Argument),
        }
    }

    /// The bytes that the next word writes.
    pub fn bytes(&mut self, alloc: Global) -> Result<Vec<u8>, CaseFault> {
        let word = self.raw_word();
        if word.is_empty() {
            return Err(CaseFault::Argument);
        }
        read_bytes(alloc, word)
    }

    /// The next word, without spaces round it, or nothing where all are taken.
    fn raw_word(&mut self) -> &'a [u8] {
        let rest = self.rest;
        let Some(at) = find_bare(rest, b' ') else {
            self.rest = &[];
            return rest;
        };
        self.rest = rest[at..].trim_ascii();
        &rest[..at]
    }
}
