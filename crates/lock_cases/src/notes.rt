// What lies under the lock: lines, each under the number of the seat that wrote it.
use seat_lock::HasHistory;
use std::alloc::{AllocError, Global};

/// Whose line it is, and how many that seat wrote before.
#[derive(Clone, Copy)]
pub struct Line {
    pub seat: u32,
    pub number: u32,
}

/// The lines in the order in which they were written.
#[derive(Drop)]
pub struct Notes {
    pub lines: Vec<Line>,
}

impl HasHistory for Notes {
    type Entry = Line;

    ghost history = { λ n. n.lines.items };

    ghost number = { λ e. e.seat };

    type Fixed = ();

    ghost fixed = { λ _. tt };
}

/// Whether each seat below `seats` has just so many lines, numbered from 0 on in their order.
pub fn is_whole(alloc: Global, notes: &Notes, seats: u32, turns: u32) -> Result<bool, AllocError> {
    let mut next: Vec<u32> = vec![in alloc; 0; seats as usize]?;
    for line in notes.lines.iter() {
        let Some(wanted) = next.get_mut(line.seat as usize) else {
            return Ok(false);
        };
        if line.number != *wanted {
            return Ok(false);
        }
        *wanted = wanted.saturating_add(1);
    }
    Ok(next.iter().all(|count| *count == turns))
}
