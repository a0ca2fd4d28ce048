//! Rows of changes.

use case_changes::{next_change, next_csn, tell_change, tell_csn};
use case_lines::{CaseFault, Fields, or_memory, tell_bytes};
use repl_data::{Bytes, Change};
use row_bytes::{
    Row, RowFault, RowKey, csn_key, csn_of_key, read_change, read_row, row_of_change, write_change,
};
use std::alloc::Global;
use std::fmt::Write;

pub fn answer(alloc: Global, fields: &mut Fields<'_>, told: &mut String) -> Result<(), CaseFault> {
    match fields.word()? {
        "write" => write_one(alloc, fields, told),
        "read" => read_one(alloc, fields, told),
        "again" => again(alloc, fields, told),
        "fronts" => fronts(alloc, fields, told),
        "flips" => flips(alloc, fields, told),
        "kept" => kept(alloc, fields, told),
        "read_kept" => read_kept(alloc, fields, told),
        "csn_key" => tell_bytes(told, csn_key(next_csn(fields)?).as_slice()),
        "csn_of_key" => csn_of(alloc, fields, told),
        _ => Err(CaseFault::Subject),
    }
}

/// The key of a row: the byte of its kind, and ten more.
pub fn next_row_key(alloc: Global, fields: &mut Fields<'_>) -> Result<RowKey, CaseFault> {
    let bytes = fields.bytes(alloc)?;
    let [kind, a, b, c, d, e, f, g, h, i, j] = bytes.as_slice() else {
        return Err(CaseFault::Argument);
    };
    Ok(RowKey {
        kind: *kind,
        key: [*a, *b, *c, *d, *e, *f, *g, *h, *i, *j],
    })
}

fn tell_read(told: &mut String, read: Result<Change, RowFault>) -> Result<(), CaseFault> {
    match read {
        Ok(change) => tell_change(told, &change),
        Err(fault) => {
            write!(told, "{fault:?}")?;
            Ok(())
        }
    }
}

fn write_one(alloc: Global, fields: &mut Fields<'_>, told: &mut String) -> Result<(), CaseFault> {
    let change = next_change(alloc, fields)?;
    let row = or_memory(write_change(alloc, &change))?;
    tell_bytes(told, row.as_slice())
}

fn read_one(alloc: Global, fields: &mut Fields<'_>, told: &mut String) -> Result<(), CaseFault> {
    let bytes = fields.bytes(alloc)?;
    tell_read(told, read_change(alloc, bytes.as_slice()))
}

/// Tells the row of the change that is read from a row.
fn again(alloc: Global, fields: &mut Fields<'_>, told: &mut String) -> Result<(), CaseFault> {
    let bytes = fields.bytes(alloc)?;
    let change = read_change(alloc, bytes.as_slice())
        .ok()
        .ok_or(CaseFault::Argument)?;
    let row = or_memory(write_change(alloc, &change))?;
    tell_bytes(told, row.as_slice())
}

/// Whether these bytes are no row.
fn is_bad(alloc: Global, bytes: &[u8]) -> bool {
    matches!(read_change(alloc, bytes), Err(RowFault::Bad { .. }))
}

/// Tells how many of the proper fronts of a row are none.
fn fronts(alloc: Global, fields: &mut Fields<'_>, told: &mut String) -> Result<(), CaseFault> {
    let bytes = fields.bytes(alloc)?;
    let row = bytes.as_slice();
    let mut bad = 0u64;
    for count in 0..row.len() {
        if is_bad(alloc, &row[..count]) {
            bad = bad.saturating_add(1);
        }
    }
    let all = row.len();
    write!(told, "{bad} of {all} are no row")?;
    Ok(())
}

/// What the bytes of a row came to that one damaged byte left.
#[derive(Clone, Copy)]
struct Damage {
    bad: u64,
    other: u64,
    same: u64,
}

/// Counts what is read of damaged bytes.
fn count_damage(alloc: Global, bytes: &[u8], row: &Change, damage: &mut Damage) {
    match read_change(alloc, bytes) {
        Err(_) => damage.bad = damage.bad.saturating_add(1),
        Ok(change) if change.csn == row.csn && change.target == row.target => {
            damage.same = damage.same.saturating_add(1);
        }
        Ok(_) => damage.other = damage.other.saturating_add(1),
    }
}

/// Tells what comes of a row where any one byte has its bit of value 1, 16 or 128 turned.
fn flips(alloc: Global, fields: &mut Fields<'_>, told: &mut String) -> Result<(), CaseFault> {
    let mut bytes = fields.bytes(alloc)?;
    let row = read_change(alloc, bytes.as_slice())
        .ok()
        .ok_or(CaseFault::Argument)?;
    let mut damage = Damage {
        bad: 0,
        other: 0,
        same: 0,
    };
    for at in 0..bytes.len() {
        for flip in [0x01, 0x10, 0x80] {
            flip_at(&mut bytes, at, flip);
            count_damage(alloc, bytes.as_slice(), &row, &mut damage);
            flip_at(&mut bytes, at, flip);
        }
    }
    let Damage { bad, other, same } = damage;
    write!(
        told,
        "{bad} no row, {other} of another change, {same} of the same"
    )?;
    Ok(())
}

fn flip_at(bytes: &mut Vec<u8>, at: usize, flip: u8) {
    if let Some(byte) = bytes.get_mut(at) {
        *byte ^= flip;
    }
}

/// Tells the row that a change is kept as.
fn kept(alloc: Global, fields: &mut Fields<'_>, told: &mut String) -> Result<(), CaseFault> {
    let change = next_change(alloc, fields)?;
    let row = or_memory(row_of_change(alloc, &change))?;
    tell_bytes(told, &[row.key.kind])?;
    told.push_str(" ")?;
    tell_bytes(told, row.key.key.as_slice())?;
    told.push_str(" ")?;
    tell_bytes(told, row.bytes.as_slice())
}

fn read_kept(alloc: Global, fields: &mut Fields<'_>, told: &mut String) -> Result<(), CaseFault> {
    let key = next_row_key(alloc, fields)?;
    let bytes = Bytes::from_vec(fields.bytes(alloc)?);
    let row = Row { key, bytes };
    tell_read(told, read_row(alloc, &row))
}

fn csn_of(alloc: Global, fields: &mut Fields<'_>, told: &mut String) -> Result<(), CaseFault> {
    let bytes = fields.bytes(alloc)?;
    match csn_of_key(bytes.as_slice()) {
        Some(csn) => tell_csn(told, csn),
        None => {
            told.push_str("none")?;
            Ok(())
        }
    }
}
