//! A search made ready, and what is taken of what it finds.

ghost use Rattle.std.specs.Prelude.{◌≡◌, ◌++◌, ◌∷◌, ◌&&◌, [], List, length, nat_lt, nat_le, IfOk, OnOk, if◌then◌else◌};
ghost use Rattle.repl_data.specs.declared.change.ShownEntry.{ShownEntry};
ghost use Rattle.repl_data.specs.Ordered.{Rises};
ghost use Rattle.ldap_types.specs.declared.request.SearchRequest.{SearchRequest};
ghost use Rattle.filter_truth.specs.Truth.{name_of};
ghost use Rattle.search_core.specs.Hits.{is_meant};
ghost use Rattle.search_core.specs.Search.{told};
ghost use Rattle.search_core.specs.Query.{Asks};

use crate::found::Hits;
use crate::matching::is_meant;
use crate::selection::Selection;
use filter_truth::{Prepared, prepare};
use ldap_types::SearchRequest;
use repl_data::{NoMemory, ShownEntry, ShownEntryList};
use std::alloc::Global;

/// A search whose filter and selection were read.
#[derive(Debug, Drop)]
pub(crate) struct Query {
    pub(crate) filter: Prepared,
    selection: Selection,
    limit: u32,
}

/// What a search has found of nothing yet.
pub(crate) fn no_hits(alloc: Global) -> Hits
    ensures { (r : SearchRequest) → result ≡ told r [] }
{
    Hits {
        entries: ShownEntryList::new(alloc),
        over: false,
    }
}

impl Query {
    /// Reads what the request asks for, in time and memory in proportion to it.
    pub(crate) fn new(alloc: Global, request: &SearchRequest) -> Result<Query, NoMemory>
        ensures { IfOk result (λ q. Asks q request.now) }
    {
        let filter = prepare(alloc, &request.filter)?;
        let selection = Selection::new(alloc, request.attrs.as_slice(), request.types_only)?;
        Ok(Query {
            filter,
            selection,
            limit: request.size_limit,
        })
    }

    /// The limit is reached: an entry more is one too many.
    fn is_full(&self, hits: &Hits) -> bool
        ensures { result ≡ (nat_lt 0 self.now.limit && nat_le self.now.limit (length hits.now.entries)) }
    {
        self.limit > 0 && self.limit as usize <= hits.entries.len()
    }

    /// Takes one entry more that is found.
    pub(crate) fn take(
        &self,
        alloc: Global,
        entry: ShownEntry,
        hits: &mut Hits,
    ) -> Result<(), NoMemory>
        ensures { OnOk result ((r : SearchRequest) (all : List ShownEntry) → Asks self.now r → hits.old ≡ told r all → hits.new ≡ told r (all ++ entry ∷ [])) }
    {
        if self.is_full(hits) {
            hits.over = true;
            return Ok(());
        }
        let entry = self.selection.entry(alloc, entry)?;
        hits.entries.push(entry)
    }

    /// Takes the entry if the filter says Yes of it.
    pub(crate) fn take_meant(
        &self,
        alloc: Global,
        entry: ShownEntry,
        hits: &mut Hits,
    ) -> Result<(), NoMemory>
        requires { Rises name_of entry.attrs }
        ensures { OnOk result ((r : SearchRequest) (all : List ShownEntry) → Asks self.now r → hits.old ≡ told r all → hits.new ≡ told r (all ++ (if is_meant r.filter entry then entry ∷ [] else []))) }
    {
        if is_meant(&self.filter, &entry) {
            return self.take(alloc, entry, hits);
        }
        Ok(())
    }
}
