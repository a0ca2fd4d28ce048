//! How many entries of each kind there are, and how such numbers are joined.
ghost use Rattle.std.specs.Prelude.{◌≡◌, ◌+◌, ◌≤◌, IfOk, if◌then◌else◌};
ghost use Rattle.view_counts.specs.Counts.{one_if, nothing, plus, IsWithin};

use repl_data::NoMemory;

/// How many entries of each kind a view has.
#[derive(Clone, Copy, Debug, Drop, Eq, PartialEq)]
pub struct ViewCounts {
    /// Present entries, the suffix entry and glue among them.
    pub present: u64,
    /// Present entries that are deleted, and show for the sake of their present children.
    pub glue: u64,
    /// Present entries that lost their name to another one.
    pub conflict: u64,
    /// Entries that were added and are not present.
    pub tombstone: u64,
}

/// One, where it is so.
pub(crate) fn one_if(is_so: bool) -> u64
    ensures { result ≡ one_if is_so }
{
    if is_so { 1 } else { 0 }
}

/// No entries.
pub(crate) fn nothing() -> ViewCounts
    ensures { result ≡ nothing }
{
    ViewCounts {
        present: 0,
        glue: 0,
        conflict: 0,
        tombstone: 0,
    }
}

/// Both. (No memory holds more entries than a number of 64 bits counts.)
fn sum(a: u64, b: u64) -> Result<u64, NoMemory>
    ensures { IfOk result (λ n. n ≡ a + b) }
{
    match a.checked_add(b) {
        Some(n) => Ok(n),
        None => Err(NoMemory),
    }
}

/// Both together.
pub(crate) fn plus(a: ViewCounts, b: ViewCounts) -> Result<ViewCounts, NoMemory>
    ensures { IfOk result (λ n. n ≡ plus a b) }
{
    let present = sum(a.present, b.present)?;
    let glue = sum(a.glue, b.glue)?;
    let conflict = sum(a.conflict, b.conflict)?;
    let tombstone = sum(a.tombstone, b.tombstone)?;
    Ok(ViewCounts {
        present,
        glue,
        conflict,
        tombstone,
    })
}

/// What is left without those that go.
pub(crate) fn minus(all: ViewCounts, goes: ViewCounts) -> ViewCounts
    requires { IsWithin goes all }
    ensures { plus result goes ≡ all }
{
    ViewCounts {
        present: all.present - goes.present,
        glue: all.glue - goes.glue,
        conflict: all.conflict - goes.conflict,
        tombstone: all.tombstone - goes.tombstone,
    }
}
