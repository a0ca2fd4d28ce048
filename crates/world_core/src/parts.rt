//! Sessions and offered updates.

use repl_data::Update;
use vector_core::Vector;

/// A session between two nodes of a world.
#[derive(Debug, Drop)]
pub struct Session {
    pub supplier: u16,
    pub consumer: u16,
    /// How far the supplier has offered.
    pub cursor: Vector,
}

/// An update that was offered.
#[derive(Debug, Drop)]
pub struct Offered {
    pub supplier: u16,
    pub update: Update,
}
