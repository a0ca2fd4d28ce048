//! Generated changes.

use case_changes::{next_change, tell_uid};
use case_lines::{CaseFault, Fields};
use repl_data::{Change, Uid};
use std::alloc::Global;

/// Numbers by a linear congruential generator, the upper half of 64 bits each.
#[derive(Drop)]
pub struct Numbers {
    state: u64,
}

impl Numbers {
    pub fn new(seed: u64) -> Numbers {
        Numbers { state: seed }
    }

    fn draw(&mut self) -> u64 {
        self.state = self
            .state
            .wrapping_mul(6364136223846793005)
            .wrapping_add(1442695040888963407);
        self.state >> 32
    }

    /// A number below the bound, and 0 below a bound of 0.
    pub fn below(&mut self, bound: u64) -> u64 {
        self.draw().checked_rem(bound).unwrap_or(0)
    }
}

/// The change of these words.
pub fn change_of(alloc: Global, words: &str) -> Result<Change, CaseFault> {
    next_change(alloc, &mut Fields::new(words.as_bytes()))
}

/// An add of the entry with this number, by its own name, below the parent.
pub fn entry(alloc: Global, number: u32, parent: &str) -> Result<Change, CaseFault> {
    let text = number % 1_000;
    let words = format!(in alloc;
        "add {number}.0.1 {number}.0.1 {parent} ou:n{number} description:d{text};objectclass:top;ou:n{number}"
    )?;
    change_of(alloc, words.as_str())
}

fn uid_text(alloc: Global, id: Uid) -> Result<String, CaseFault> {
    let mut text = String::new(alloc);
    tell_uid(&mut text, id)?;
    Ok(text)
}

/// A CSN that may be below others. The number is a part of it.
fn csn_text(alloc: Global, numbers: &mut Numbers, number: u64) -> Result<String, CaseFault> {
    let time = numbers.below(60).saturating_add(1_000);
    let rid = numbers.below(3).saturating_add(10);
    Ok(format!(in alloc; "{time}.{number}.{rid}")?)
}

fn add_text(alloc: Global, csn: &str, parent: &str, name: u64) -> Result<String, CaseFault> {
    Ok(format!(in alloc;
        "add {csn} {csn} {parent} ou:n{name} description:d{name};objectclass:top;ou:n{name}"
    )?)
}

fn modify_text(alloc: Global, csn: &str, target: &str, text: u64) -> Result<String, CaseFault> {
    Ok(format!(in alloc; "mod {csn} {target} replace:description:d{text}")?)
}

fn rename_text(alloc: Global, csn: &str, target: &str, name: u64) -> Result<String, CaseFault> {
    Ok(format!(in alloc; "ren {csn} {target} ou:n{name} -")?)
}

fn delete_text(alloc: Global, csn: &str, target: &str) -> Result<String, CaseFault> {
    Ok(format!(in alloc; "del {csn} {target}")?)
}

/// The words of a change by one of ten numbers: four adds below the target, two modifies, two renames, two deletes.
fn change_text(
    alloc: Global,
    kind: u64,
    csn: &str,
    target: &str,
    name: u64,
) -> Result<String, CaseFault> {
    if kind < 4 {
        return add_text(alloc, csn, target, name);
    }
    if kind < 6 {
        return modify_text(alloc, csn, target, name);
    }
    if kind < 8 {
        return rename_text(alloc, csn, target, name);
    }
    delete_text(alloc, csn, target)
}

/// A change of an entry or an add below it, with one of so many names. Its CSN may be below others; the number is a
/// part of it.
pub fn drawn(
    alloc: Global,
    numbers: &mut Numbers,
    number: u64,
    target: Uid,
    names: u64,
) -> Result<Change, CaseFault> {
    let csn = csn_text(alloc, numbers, number)?;
    let target = uid_text(alloc, target)?;
    let (kind, name) = (numbers.below(10), numbers.below(names));
    let words = change_text(alloc, kind, csn.as_str(), target.as_str(), name)?;
    change_of(alloc, words.as_str())
}
