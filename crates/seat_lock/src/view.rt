// What a seat knows. No value of these types is made.
use std::collections::LinkedList;

/// Where a seat stands with its turn.
pub enum Stage {
    Idle,
    /// It has drawn this turn.
    Waits(u64),
    /// It has the value out, in this turn.
    Holds(u64),
}

pub struct View<E, G> {
    /// The history, as far as the seat has seen it.
    pub seen: LinkedList<E>,
    pub numbers: LinkedList<u32>,
    /// Another seat was joined to this one.
    pub joined: bool,
    pub stage: Stage,
    /// What this seat and the other had seen when they were joined, until the next look.
    pub told: LinkedList<Told<E>>,
    /// What of the value stays as it was at the start. A seat that was joined to another has none.
    pub fixed: Option<G>,
}

/// What a seat with these numbers had seen.
pub struct Told<E> {
    pub numbers: LinkedList<u32>,
    pub seen: LinkedList<E>,
}
