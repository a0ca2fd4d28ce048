//! What is asked of a view, however it is kept.

ghost use Rattle.std.specs.Prelude.{◌≡◌, IfOk};
ghost use Rattle.std.specs.Option.{option_copied};
ghost use Rattle.repl_data.specs.Order.{suffix_id};
ghost use Rattle.repl_data.specs.View.{DirectoryView, child_of, children_of, entry_of, tombstones_of, tombstone_of, name_of, parent_of};
ghost use Rattle.repl_data.specs.Lent.{own_of, standing_of, tombstone_own_of, tombstone_parent_of};

use crate::change::{Rdn, Shown, ShownEntry};
use crate::csn::{Uid, UidList};
use crate::items::NoMemory;
use std::alloc::Global;

/// How a present entry stands to the others.
#[derive(Clone, Copy, Debug, Drop, Eq, PartialEq)]
pub struct Standing {
    /// It is deleted, and shows for the sake of its present children.
    pub glue: bool,
    /// Another entry has the name that it contends for.
    pub lost: bool,
}

/// A view of the entries of a suffix, however it is kept.
pub trait View {
    /// The view that it stands for.
    ghost view: { Self → DirectoryView };

    /// The printed name of the suffix (RFC 4514).
    fn suffix_name(&self) -> &[u8]
        ensures { result.now ≡ (view self.now).suffix };

    /// The suffix entry.
    fn root(&self) -> Uid
        ensures { result ≡ suffix_id };

    /// The child that shows this RDN.
    fn child(&self, parent: Uid, rdn: &Rdn) -> Option<Uid>
        ensures { result ≡ child_of (view self.now) parent rdn.now };

    /// The children, in order of shown RDN key.
    fn children(&self, alloc: Global, parent: Uid) -> Result<UidList, NoMemory>
        ensures { IfOk result (λ ids. ids ≡ children_of (view self.now) parent) };

    /// A present entry, as it shows.
    fn entry(&self, alloc: Global, id: Uid) -> Result<Option<ShownEntry>, NoMemory>
        ensures { IfOk result (λ entry. entry ≡ entry_of (view self.now) id) };

    /// The tombstones, in order of id.
    fn tombstones(&self, alloc: Global) -> Result<UidList, NoMemory>
        ensures { IfOk result (λ ids. ids ≡ tombstones_of (view self.now)) };

    /// A tombstone, as it shows.
    fn tombstone(&self, alloc: Global, id: Uid) -> Result<Option<ShownEntry>, NoMemory>
        ensures { IfOk result (λ entry. entry ≡ tombstone_of (view self.now) id) };

    /// The name of a present entry or a tombstone.
    fn name(&self, id: Uid) -> Option<&Rdn>
        ensures { option_copied result ≡ name_of (view self.now) id };

    /// The parent of a present entry or a tombstone.
    fn parent(&self, id: Uid) -> Option<Uid>
        ensures { result ≡ parent_of (view self.now) id };

    /// The user attributes that a present entry shows, in order of name, as the view keeps them: no copy is
    /// made. The attributes and classes that a view derives are not among them.
    fn own(&self, id: Uid) -> Option<&[Shown]>
        ensures { option_copied result ≡ own_of (view self.now) id };

    /// Whether a present entry is glue, and whether it lost its name.
    fn standing(&self, id: Uid) -> Option<Standing>
        ensures { result ≡ standing_of (view self.now) id };

    /// The user attributes that a tombstone shows, in order of name, as the view keeps them: no copy is made. The
    /// attributes and the class that a view derives are not among them.
    fn tombstone_own(&self, id: Uid) -> Option<&[Shown]>
        ensures { option_copied result ≡ tombstone_own_of (view self.now) id };

    /// The parent that a tombstone had.
    fn tombstone_parent(&self, id: Uid) -> Option<Uid>
        ensures { result ≡ tombstone_parent_of (view self.now) id };
}
