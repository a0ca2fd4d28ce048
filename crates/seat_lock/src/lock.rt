// The lock: a word that counts the turns that were drawn, one that counts those that are over, and a slot with the value.
ghost use Rattle.std.specs.Prelude.{◌≡◌};

use crate::rule::{HasHistory, Setup, Turns};
use crate::sleep::Places;
use crate::view::View;
use atomic_table::Table;
use std::alloc::Global;

/// A value that seats take in turns.
#[derive(Drop)]
pub struct SeatLock<T: HasHistory> {
    pub(crate) table: Table<Option<T>, View<T::Entry, T::Fixed>, Setup<T>, Turns, Global>,
    pub(crate) places: Places,
    ghost shape: { (table.shared.table_id.words ≡ 2) × (table.shared.table_id.slots ≡ 1) },
}
