//! What holds of the entries of every view.

ghost use Rattle.std.specs.Prelude.{◌≡◌, Some};
ghost use Rattle.repl_data.specs.declared.csn.Uid.{Uid};
ghost use Rattle.repl_data.specs.declared.change.ShownEntry.{ShownEntry};
ghost use Rattle.repl_data.specs.Ordered.{Rises};
ghost use Rattle.repl_data.specs.View.{DirectoryView, entry_of, tombstone_of};
ghost use Rattle.filter_truth.specs.Truth.{name_of};

/// The attributes of an entry as it shows stand in order of name, so that a filter may be asked about it.
pub fn entry_laws()
    ensures present { (v : DirectoryView) (u : Uid) (e : ShownEntry) → entry_of v u ≡ Some e → Rises name_of e.attrs }
    ensures tombstone { (v : DirectoryView) (u : Uid) (e : ShownEntry) → tombstone_of v u ≡ Some e → Rises name_of e.attrs }
{}
