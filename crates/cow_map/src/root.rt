// The root of a version: the pages that it has.
ghost use Rattle.std.specs.Prelude.{◌≡◌, [], IfOk};

use crate::memory::NoMemory;
use crate::page::Page;
use std::alloc::Global;
use std::marker::Model;
use std::sync::Arc;

/// The pages of a version, which `share` shares. Contracts see the list of the pages.
#[derive(Drop)]
pub struct Root<K, V> {
    pages: Option<Arc<Vec<Page<K, V>>>>,
}

impl<K, V> Model for Root<K, V> {
    ghost use Rattle.std.specs.Prelude.{List, []};
    ghost use Rattle.cow_map.specs.Shared.{shared_items};

    ghost Value = { List (List (K × V)) };

    ghost view = { λ r. shared_items r.pages };
}

impl<K, V> Root<K, V> {
    /// A root without pages.
    pub fn new() -> Root<K, V>
        ensures { result ≡ [] }
    {
        Root { pages: None }
    }

    pub fn of(alloc: Global, pages: Vec<Page<K, V>>) -> Result<Root<K, V>, NoMemory>
    where
        K: Drop,
        V: Drop,
        ensures { IfOk result (λ root. root ≡ pages.items) }
    {
        Ok(Root {
            pages: Some(Arc::new(alloc, pages)?),
        })
    }

    pub fn pages(&self) -> &[Page<K, V>]
        ensures { result.now ≡ self.now }
    {
        match &self.pages {
            Some(pages) => pages.as_slice(),
            None => &[],
        }
    }

    /// The same pages once more, in constant time.
    pub fn share(&self) -> Result<Root<K, V>, NoMemory>
        ensures { IfOk result (λ root. root ≡ self.now) }
    {
        let pages = match &self.pages {
            Some(pages) => Some(Arc::try_clone(pages)?),
            None => None,
        };
        Ok(Root { pages })
    }
}
