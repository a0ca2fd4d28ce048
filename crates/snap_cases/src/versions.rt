//! Changes one after the other, with all snapshots kept.

use crate::run::Run;
use crate::shown::shown;
use case_lines::{CaseFault, or_memory};
use repl_data::{Change, Suffix};
use std::alloc::Global;
use std::fmt::Write;
use view_snap::Snapshot;

/// A snapshot, and what the tree showed when it was made.
#[derive(Drop)]
struct Version {
    snapshot: Snapshot,
    shown: String,
}

/// The snapshot as it is, and what the tree shows.
fn present_version(alloc: Global, run: &Run) -> Result<Version, CaseFault> {
    Ok(Version {
        snapshot: or_memory(run.snapshot.share(alloc))?,
        shown: shown(alloc, &run.tree)?,
    })
}

/// Appends the number of the snapshot, if it does not show what the tree showed.
fn tell_differing(alloc: Global, version: &Version, told: &mut String) -> Result<(), CaseFault> {
    let now = shown(alloc, &version.snapshot)?;
    if now.as_str() == version.shown.as_str() {
        return Ok(());
    }
    let number = version.snapshot.number();
    write!(told, " but not {number}")?;
    Ok(())
}

/// A tree with a snapshot that moves with it, and the snapshots so far.
#[derive(Drop)]
pub struct Versions {
    run: Run,
    kept: Vec<Version>,
}

impl Versions {
    /// The suffix entry alone.
    pub fn new(alloc: Global, suffix: &Suffix) -> Result<Versions, CaseFault> {
        Ok(Versions {
            run: or_memory(Run::new(alloc, suffix))?,
            kept: Vec::new(alloc),
        })
    }

    /// Takes the change, if it may be taken, and keeps the snapshot after it.
    pub fn take(&mut self, alloc: Global, change: &Change) -> Result<bool, CaseFault> {
        if or_memory(self.run.take(alloc, change))? {
            let version = present_version(alloc, &self.run)?;
            self.kept.push(version)?;
            return Ok(true);
        }
        Ok(false)
    }

    /// The snapshot after all changes.
    pub fn last(&self) -> &Snapshot {
        &self.run.snapshot
    }

    /// Appends the number of each snapshot that does not show what the tree showed.
    pub fn tell_differing(&self, alloc: Global, told: &mut String) -> Result<(), CaseFault> {
        for version in self.kept.as_slice() {
            tell_differing(alloc, version, told)?;
        }
        Ok(())
    }
}

/// The tree and the snapshots after the changes, each of which has to be one that may be taken.
fn after(alloc: Global, suffix: &Suffix, changes: &[Change]) -> Result<Versions, CaseFault> {
    let mut versions = Versions::new(alloc, suffix)?;
    for change in changes {
        if !versions.take(alloc, change)? {
            return Err(CaseFault::Argument);
        }
    }
    Ok(versions)
}

/// The number of the snapshot after the changes, in their order, and what it shows; then the numbers of those that do
/// not show what the tree showed.
pub fn tell_moved(
    alloc: Global,
    suffix: &Suffix,
    changes: &[Change],
    told: &mut String,
) -> Result<(), CaseFault> {
    let versions = after(alloc, suffix, changes)?;
    let number = versions.last().number();
    let last = shown(alloc, versions.last())?;
    write!(told, "{number}")?;
    told.push_str(last.as_str())?;
    versions.tell_differing(alloc, told)
}
