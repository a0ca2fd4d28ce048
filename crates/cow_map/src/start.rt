// A search that begins at a place among the keys, and goes over the rows from there on.
ghost use Rattle.std.specs.Prelude.{◌≡◌, ◌+◌, ◌<◌, ◌≤◌, Bool, filter, length, take, drop};
ghost use Rattle.cow_map.specs.Rows.{IsRising, all_rows};
ghost use Rattle.cow_map.specs.Places.{IsUpward, AreBefore, AreFrom, begins_from};

use crate::page::Page;
use crate::pages::{behind, rows_at};
use crate::rows::Row;
use crate::walk::Walk;

/// A place among the keys of a map.
pub trait Start<K> {
    /// Whether a key is at the place or behind it.
    ghost from: { Self → K → Bool };

    /// Whether the key is at the place or behind it.
    fn is_from(&self, key: &K) -> bool
        ensures { result ≡ from self.now key.now };
}

/// The rows from the place on. Two binary searches.
pub fn walk_among<'a, K: Ord, V, S: Start<K>>(pages: &'a [Page<K, V>], start: &S) -> Walk<'a, K, V>
    requires rising { IsRising K.cmp (all_rows pages.now) }
    requires upward { IsUpward K.cmp (S.from start.now) }
    ensures { result ≡ filter (λ row. S.from start.now row.0) (all_rows pages.now) }
{
    let at = page_from(pages, start);
    let rows = rows_at(pages, at);
    let from = row_from(rows, start);
    Walk::new(rest(rows, from), behind(pages, at))
}

/// The rows from this place on.
fn rest<K, V>(rows: &[Row<K, V>], from: usize) -> &[Row<K, V>]
    requires { from ≤ length rows.now }
    ensures { result.now ≡ drop from rows.now }
{
    &rows[from..]
}

/// The place of the page on which the first row from the place on stands, or the last page before it. A binary search.
fn page_from<K: Ord, V, S: Start<K>>(pages: &[Page<K, V>], start: &S) -> usize
    requires rising { IsRising K.cmp (all_rows pages.now) }
    requires upward { IsUpward K.cmp (S.from start.now) }
    ensures within { result ≤ length pages.now }
    ensures before { AreBefore (S.from start.now) (all_rows (take result pages.now)) }
    ensures behind { AreFrom (S.from start.now) (all_rows (drop (result + 1) pages.now)) }
{
    let mut low = 0;
    let mut high = pages.len();
    if high == 0 {
        return 0;
    }
    while high - low > 1 {
        let middle = low + (high - low) / 2;
        if begins_from(&pages[middle], start) {
            high = middle;
        } else {
            low = middle;
        }
    }
    low
}

/// The first row of the page is at the place or behind it.
fn begins_from<K, V, S: Start<K>>(page: &Page<K, V>, start: &S) -> bool
    ensures value { result ≡ begins_from (S.from start.now) page.now }
    ensures some { 0 < length page.now }
{
    start.is_from(page.rows()[0].key())
}

/// The place of the first row that is at the place or behind it. A binary search.
fn row_from<K: Ord, V, S: Start<K>>(rows: &[Row<K, V>], start: &S) -> usize
    requires rising { IsRising K.cmp rows.now }
    requires upward { IsUpward K.cmp (S.from start.now) }
    ensures within { result ≤ length rows.now }
    ensures before { AreBefore (S.from start.now) (take result rows.now) }
    ensures behind { AreFrom (S.from start.now) (drop result rows.now) }
{
    let mut low = 0;
    let mut high = rows.len();
    while low < high {
        let middle = low + (high - low) / 2;
        if start.is_from(rows[middle].key()) {
            high = middle;
        } else {
            low = middle + 1;
        }
    }
    low
}
