// The pages of a version: where a key stands, and what a change makes of them.
ghost use Rattle.std.specs.Prelude.{◌≡◌, ◌+◌, ◌<◌, ◌≤◌, ◌++◌, length, take, drop, IfOk, OnOk, IfSome, IfNone, vec_len};
ghost use Rattle.std.specs.Option.{option_copied};
ghost use Rattle.std.specs.Arc.{arc_value};
ghost use Rattle.std.specs.BTreeMap.{insert_entry, is_at};
ghost use Rattle.std.specs.Map.{remove_entry};
ghost use Rattle.cow_map.specs.Rows.{IsRising, ClonesAreEqual, all_rows, value_at};
ghost use Rattle.cow_map.specs.Places.{AreBelow, AreAbove, starts_above};

use crate::memory::NoMemory;
use crate::page::{PAGE_ROWS, Page};
use crate::rows::{Row, copied_rows, place_of, rows_with, rows_without, value_in};
use std::alloc::Global;
use std::sync::Arc;

/// The value of the row with the key, where there is one. Two binary searches: one over the first
/// keys of the pages, one over the rows of a page.
pub fn value_among<'a, K: Ord, V>(pages: &'a [Page<K, V>], key: &K) -> Option<&'a V>
    requires { IsRising K.cmp (all_rows pages.now) }
    ensures { option_copied result ≡ value_at K.cmp (all_rows pages.now) key.now }
{
    let at = page_of(pages, key);
    value_in(rows_at(pages, at), key)
}

/// The pages with the value at the key.
pub fn pages_with<K: Ord + Clone + Drop, V: Drop>(
    alloc: Global,
    pages: &[Page<K, V>],
    key: K,
    value: Arc<V>,
) -> Result<Vec<Page<K, V>>, NoMemory>
    requires rising { IsRising K.cmp (all_rows pages.now) }
    requires clones { ClonesAreEqual K.is_clone }
    ensures { IfOk result (λ changed. all_rows changed.items ≡ insert_entry K.cmp (all_rows pages.now) key (arc_value value)) }
{
    let at = page_of(pages, &key);
    let rows = rows_at(pages, at);
    let cut = cut_of(rows, &key);
    let changed = rows_with(alloc, rows, key, value)?;
    replaced(alloc, pages, at, paged(alloc, changed, cut)?)
}

/// The pages without the row with the key; None where there is no such row.
pub fn pages_without<K: Ord + Clone + Drop, V: Drop>(
    alloc: Global,
    pages: &[Page<K, V>],
    key: &K,
) -> Result<Option<Vec<Page<K, V>>>, NoMemory>
    requires rising { IsRising K.cmp (all_rows pages.now) }
    requires clones { ClonesAreEqual K.is_clone }
    ensures some { IfOk result (λ found. IfSome found (λ changed. all_rows changed.items ≡ remove_entry (is_at (K.cmp key.now)) (all_rows pages.now))) }
    ensures none { IfOk result (λ found. IfNone found (remove_entry (is_at (K.cmp key.now)) (all_rows pages.now) ≡ all_rows pages.now)) }
{
    let at = page_of(pages, key);
    let rows = rows_at(pages, at);
    let Ok(place) = place_of(rows, key) else {
        return Ok(None);
    };
    let kept = rows_without(alloc, rows, place)?;
    Ok(Some(replaced(alloc, pages, at, paged(alloc, kept, PAGE_ROWS)?)?))
}

/// The place of the page on which the key stands, or would stand. A binary search.
fn page_of<K: Ord, V>(pages: &[Page<K, V>], key: &K) -> usize
    requires { IsRising K.cmp (all_rows pages.now) }
    ensures within { result ≤ length pages.now }
    ensures before { AreBelow K.cmp (all_rows (take result pages.now)) key.now }
    ensures behind { AreAbove K.cmp (all_rows (drop (result + 1) pages.now)) key.now }
{
    let mut low = 0;
    let mut high = pages.len();
    if high == 0 {
        return 0;
    }
    while high - low > 1 {
        let middle = low + (high - low) / 2;
        if begins_above(&pages[middle], key) {
            high = middle;
        } else {
            low = middle;
        }
    }
    low
}

/// The first row of the page is above the key.
fn begins_above<K: Ord, V>(page: &Page<K, V>, key: &K) -> bool
    ensures value { result ≡ starts_above K.cmp page.now key.now }
    ensures some { 0 < length page.now }
{
    key.cmp(page.rows()[0].key()).is_lt()
}

/// The rows of the page at this place, and none behind the last one.
pub fn rows_at<K, V>(pages: &[Page<K, V>], at: usize) -> &[Row<K, V>]
    ensures rows { all_rows pages.now ≡ all_rows (take at pages.now) ++ (result.now ++ all_rows (drop (at + 1) pages.now)) }
    ensures most { length result.now ≤ PAGE_ROWS }
{
    if at < pages.len() {
        pages[at].rows()
    } else {
        &[]
    }
}

/// Where a page that is too long is cut: behind its last row where the key is above it, so that keys
/// that come in rising order leave full pages, else in the middle.
fn cut_of<K: Ord, V>(rows: &[Row<K, V>], key: &K) -> usize
    ensures some { 0 < result }
    ensures most { result ≤ PAGE_ROWS }
{
    match rows.last() {
        Some(row) if row.key().cmp(key).is_lt() => PAGE_ROWS,
        _ => PAGE_ROWS / 2,
    }
}

/// The rows as no page, one, or two where they are too many for one.
fn paged<K: Clone + Drop, V: Drop>(
    alloc: Global,
    rows: Vec<Row<K, V>>,
    cut: usize,
) -> Result<Vec<Page<K, V>>, NoMemory>
    requires clones { ClonesAreEqual K.is_clone }
    requires most { vec_len rows ≤ PAGE_ROWS + 1 }
    requires cut_some { 0 < cut }
    requires cut_most { cut ≤ PAGE_ROWS }
    ensures { IfOk result (λ pages. all_rows pages.items ≡ rows.items) }
{
    let mut pages = Vec::new(alloc);
    if rows.len() > PAGE_ROWS {
        let front = copied_rows(alloc, &rows[..cut])?;
        let back = copied_rows(alloc, &rows[cut..])?;
        pages.push(Page::new(alloc, front)?)?;
        pages.push(Page::new(alloc, back)?)?;
    } else if !rows.is_empty() {
        pages.push(Page::new(alloc, rows)?)?;
    }
    Ok(pages)
}

/// The pages, with others in the place of the one at this place.
fn replaced<K: Drop, V: Drop>(
    alloc: Global,
    pages: &[Page<K, V>],
    at: usize,
    mut changed: Vec<Page<K, V>>,
) -> Result<Vec<Page<K, V>>, NoMemory>
    requires { at ≤ length pages.now }
    ensures { IfOk result (λ all. all.items ≡ take at pages.now ++ (changed.items ++ drop (at + 1) pages.now)) }
{
    let mut all = Vec::with_capacity(alloc, pages.len().saturating_add(1))?;
    share_pages(&mut all, &pages[..at])?;
    all.append(&mut changed)?;
    share_pages(&mut all, behind(pages, at))?;
    Ok(all)
}

/// The pages behind this place.
pub fn behind<K, V>(pages: &[Page<K, V>], at: usize) -> &[Page<K, V>]
    ensures { result.now ≡ drop (at + 1) pages.now }
{
    if at < pages.len() {
        &pages[at + 1..]
    } else {
        &[]
    }
}

/// Appends the same pages once more.
fn share_pages<K: Drop, V: Drop>(
    shares: &mut Vec<Page<K, V>>,
    pages: &[Page<K, V>],
) -> Result<(), NoMemory>
    ensures { OnOk result (shares.new.items ≡ shares.old.items ++ pages.now) }
{
    for page in pages {
        shares.push(page.share()?)?;
    }
    Ok(())
}
