// An iterator over the rows of a version.
ghost use Rattle.std.specs.Prelude.{◌≡◌, ◌++◌};
ghost use Rattle.std.specs.Iterator.{YieldsFirstBy, item_count};
ghost use Rattle.std.specs.Map.Iter.{deref_pair};
ghost use Rattle.cow_map.specs.Rows.{all_rows};

use crate::page::Page;
use crate::rows::Row;
use std::marker::Model;

/// The rows of a version that are left, in rising order. Contracts see the list of them.
#[derive(Drop)]
pub struct Walk<'a, K, V> {
    rows: &'a [Row<K, V>],
    pages: &'a [Page<K, V>],
}

impl<'a, K, V> Model for Walk<'a, K, V> {
    ghost use Rattle.std.specs.Prelude.{List, ◌++◌};
    ghost use Rattle.cow_map.specs.Rows.{all_rows};

    ghost Value = { List (K × V) };

    ghost view = { λ w. w.rows.now ++ all_rows w.pages.now };
}

impl<'a, K, V> Walk<'a, K, V> {
    /// Goes over the rows of the pages.
    pub(crate) fn over(pages: &'a [Page<K, V>]) -> Walk<'a, K, V>
        ensures { result ≡ all_rows pages.now }
    {
        Walk { rows: &[], pages }
    }

    /// Goes over the rows, and then over those of the pages.
    pub(crate) fn new(rows: &'a [Row<K, V>], pages: &'a [Page<K, V>]) -> Walk<'a, K, V>
        ensures { result ≡ rows.now ++ all_rows pages.now }
    {
        Walk { rows, pages }
    }
}

impl<'a, K, V> Iterator for Walk<'a, K, V> {
    type Item = (&'a K, &'a V);

    ghost next_gives = { YieldsFirstBy deref_pair (λ s. s) };

    ghost remaining = { item_count (λ s. s) };

    fn next(&mut self) -> Option<(&'a K, &'a V)> {
        if self.rows.is_empty() {
            let (page, pages) = self.pages.split_first()?;
            self.rows = page.rows();
            self.pages = pages;
        }
        let (row, rows) = self.rows.split_first()?;
        self.rows = rows;
        Some((row.key(), row.value()))
    }
}
