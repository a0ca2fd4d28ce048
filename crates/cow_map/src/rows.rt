// The rows of a map, and what is done with those of one page.
ghost use Rattle.std.specs.Prelude.{◌≡◌, ◌+◌, ◌-◌, ◌<◌, ◌≤◌, ◌++◌, length, take, drop, remove, IfOk, OnOk, MatchResult, vec_len};
ghost use Rattle.std.specs.Option.{option_copied, option_to_list};
ghost use Rattle.std.specs.Arc.{arc_value};
ghost use Rattle.std.specs.BTreeMap.{insert_entry};
ghost use Rattle.cow_map.specs.Rows.{IsRising, ClonesAreEqual, value_at};
ghost use Rattle.cow_map.specs.Places.{IsPlace, IsGap};

use crate::memory::NoMemory;
use std::alloc::Global;
use std::cmp::Ordering;
use std::marker::Model;
use std::sync::Arc;

/// A key and its value. Contracts see the pair.
#[derive(Drop)]
pub struct Row<K, V> {
    key: K,
    value: Arc<V>,
}

impl<K, V> Model for Row<K, V> {
    ghost use Rattle.std.specs.Arc.{arc_value};

    ghost Value = { K × V };

    ghost view = { λ r. (r.key, arc_value r.value) };
}

impl<K, V> Row<K, V> {
    pub fn new(key: K, value: Arc<V>) -> Row<K, V>
        ensures { result ≡ (key, arc_value value) }
    {
        Row { key, value }
    }

    pub fn key(&self) -> &K
        ensures { result.now ≡ self.now.0 }
    {
        &self.key
    }

    pub fn value(&self) -> &V
        ensures { result.now ≡ self.now.1 }
    {
        &self.value
    }

    /// A row with a clone of the key and the same value.
    fn copied(&self) -> Result<Row<K, V>, NoMemory>
    where
        K: Clone + Drop,
        requires { ClonesAreEqual K.is_clone }
        ensures { IfOk result (λ row. row ≡ self.now) }
    {
        let key = self.key.clone()?;
        let value = Arc::try_clone(&self.value)?;
        Ok(Row { key, value })
    }
}

/// The place of the key among the rows, or where it would stand. A binary search.
pub fn place_of<K: Ord, V>(rows: &[Row<K, V>], key: &K) -> Result<usize, usize>
    requires { IsRising K.cmp rows.now }
    ensures { MatchResult result (IsPlace K.cmp rows.now key.now) (IsGap K.cmp rows.now key.now) }
{
    let mut low = 0;
    let mut high = rows.len();
    while low < high {
        let middle = low + (high - low) / 2;
        match key.cmp(rows[middle].key()) {
            Ordering::Less => high = middle,
            Ordering::Equal => return Ok(middle),
            Ordering::Greater => low = middle + 1,
        }
    }
    Err(low)
}

/// The value of the row with the key, where there is one.
pub fn value_in<'a, K: Ord, V>(rows: &'a [Row<K, V>], key: &K) -> Option<&'a V>
    requires { IsRising K.cmp rows.now }
    ensures { option_copied result ≡ value_at K.cmp rows.now key.now }
{
    match place_of(rows, key) {
        Ok(at) => Some(rows[at].value()),
        Err(_) => None,
    }
}

/// Copies of the rows, with the value at the key: in the place of the row with the key, or in a row
/// of its own where it belongs.
pub fn rows_with<K: Ord + Clone + Drop, V: Drop>(
    alloc: Global,
    rows: &[Row<K, V>],
    key: K,
    value: Arc<V>,
) -> Result<Vec<Row<K, V>>, NoMemory>
    requires rising { IsRising K.cmp rows.now }
    requires clones { ClonesAreEqual K.is_clone }
    ensures rows { IfOk result (λ changed. changed.items ≡ insert_entry K.cmp rows.now key (arc_value value)) }
    ensures most { IfOk result (λ changed. vec_len changed ≤ length rows.now + 1) }
{
    match place_of(rows, &key) {
        Ok(at) => {
            let row = Row::new(rows[at].key().clone()?, value);
            copied(alloc, rows, at, Some(row), at + 1)
        }
        Err(at) => copied(alloc, rows, at, Some(Row::new(key, value)), at),
    }
}

/// Copies of the rows but the one at this place.
pub fn rows_without<K: Clone + Drop, V: Drop>(
    alloc: Global,
    rows: &[Row<K, V>],
    at: usize,
) -> Result<Vec<Row<K, V>>, NoMemory>
    requires place { at < length rows.now }
    requires clones { ClonesAreEqual K.is_clone }
    ensures rows { IfOk result (λ kept. kept.items ≡ remove rows.now at) }
    ensures most { IfOk result (λ kept. vec_len kept ≤ length rows.now) }
{
    copied(alloc, rows, at, None, at + 1)
}

/// Copies of the rows before one place, a row if there is one, and copies of those from another place on.
fn copied<K: Clone + Drop, V: Drop>(
    alloc: Global,
    rows: &[Row<K, V>],
    before: usize,
    row: Option<Row<K, V>>,
    from: usize,
) -> Result<Vec<Row<K, V>>, NoMemory>
    requires clones { ClonesAreEqual K.is_clone }
    requires before { before ≤ length rows.now }
    requires from { from ≤ length rows.now }
    ensures rows { IfOk result (λ copies. copies.items ≡ take before rows.now ++ (option_to_list row ++ drop from rows.now)) }
    ensures len { IfOk result (λ copies. vec_len copies ≡ before + length (option_to_list row) + (length rows.now - from)) }
{
    let mut copies = Vec::with_capacity(alloc, rows.len().saturating_add(1))?;
    copy_rows(&mut copies, &rows[..before])?;
    if let Some(row) = row {
        copies.push(row)?;
    }
    copy_rows(&mut copies, &rows[from..])?;
    Ok(copies)
}

/// Copies of the rows.
pub fn copied_rows<K: Clone + Drop, V: Drop>(
    alloc: Global,
    rows: &[Row<K, V>],
) -> Result<Vec<Row<K, V>>, NoMemory>
    requires { ClonesAreEqual K.is_clone }
    ensures rows { IfOk result (λ copies. copies.items ≡ rows.now) }
    ensures len { IfOk result (λ copies. vec_len copies ≡ length rows.now) }
{
    let mut copies = Vec::with_capacity(alloc, rows.len())?;
    copy_rows(&mut copies, rows)?;
    Ok(copies)
}

/// Appends copies of the rows.
fn copy_rows<K: Clone + Drop, V: Drop>(
    copies: &mut Vec<Row<K, V>>,
    rows: &[Row<K, V>],
) -> Result<(), NoMemory>
    requires { ClonesAreEqual K.is_clone }
    ensures rows { OnOk result (copies.new.items ≡ copies.old.items ++ rows.now) }
    ensures len { OnOk result (vec_len copies.new ≡ vec_len copies.old + length rows.now) }
{
    for row in rows {
        copies.push(row.copied()?)?;
    }
    Ok(())
}
