// The pages that the rows of a map stand on.
ghost use Rattle.std.specs.Prelude.{◌≡◌, ◌<◌, ◌≤◌, length, IfOk, vec_len};

use crate::memory::NoMemory;
use crate::rows::Row;
use std::alloc::Global;
use std::marker::Model;
use std::sync::Arc;

/// The most rows of a page.
pub const PAGE_ROWS: usize = 128;

/// Some rows that versions of a map share. Contracts see the list of them.
#[derive(Drop)]
pub struct Page<K, V> {
    rows: Arc<Vec<Row<K, V>>>,
}

impl<K, V> Model for Page<K, V> {
    ghost use Rattle.std.specs.Prelude.{List, ◌<◌, ◌≤◌, length};
    ghost use Rattle.std.specs.Arc.{arc_value};

    ghost Value = { List (K × V) };

    ghost view = { λ p. (arc_value p.rows).items };

    ghost invariant = { λ p. (0 < length (arc_value p.rows).items) × (length (arc_value p.rows).items ≤ 128) };
}

impl<K, V> Page<K, V> {
    pub fn new(alloc: Global, rows: Vec<Row<K, V>>) -> Result<Page<K, V>, NoMemory>
    where
        K: Drop,
        V: Drop,
        requires some { 0 < vec_len rows }
        requires most { vec_len rows ≤ PAGE_ROWS }
        ensures { IfOk result (λ page. page ≡ rows.items) }
    {
        Ok(Page {
            rows: Arc::new(alloc, rows)?,
        })
    }

    pub fn rows(&self) -> &[Row<K, V>]
        ensures value { result.now ≡ self.now }
        ensures some { 0 < length self.now }
        ensures most { length self.now ≤ PAGE_ROWS }
    {
        self.rows.as_slice()
    }

    pub fn share(&self) -> Result<Page<K, V>, NoMemory>
        ensures { IfOk result (λ page. page ≡ self.now) }
    {
        Ok(Page {
            rows: Arc::try_clone(&self.rows)?,
        })
    }
}
