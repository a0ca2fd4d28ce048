//! The elements around a place.

ghost use Rattle.std.specs.Prelude.{◌≡◌, ◌++◌, ◌∷◌, [], MatchOption};
ghost use Rattle.std.specs.Bool.{OnTrue, OnFalse};

use crate::place::Place;
use std::marker::Model;

/// How many elements are around a place at most: the message's and the operation's, 49 filters around
/// another one, and the last filter's own.
const LEVELS: usize = 52;

/// Places inside elements that are around each other, the outermost first.
#[derive(Debug, Drop)]
pub(crate) struct Levels {
    places: [Place; LEVELS],
    depth: usize,
}

impl Model for Levels {
    ghost use Rattle.std.specs.Prelude.{List, ◌≤◌, take};
    ghost use Rattle.request_wait.specs.declared.place.Place.{Place};

    ghost Value = { List Place };

    ghost view = { λ a. take a.depth a.places };

    ghost invariant = { λ a. a.depth ≤ 52 };
}

impl Levels {
    /// None; no place of the array is looked at before it is written.
    pub(crate) fn new(filler: Place) -> Levels
        ensures { result ≡ [] }
    {
        Levels {
            places: [filler; LEVELS],
            depth: 0,
        }
    }

    /// Whether there was room for one more.
    pub(crate) fn push(&mut self, place: Place) -> bool
        ensures pushed { OnTrue result (self.new ≡ self.old ++ place ∷ []) }
        ensures full { OnFalse result (self.new ≡ self.old) }
    {
        if self.depth == LEVELS {
            return false;
        }
        self.places[self.depth] = place;
        self.depth += 1;
        true
    }

    pub(crate) fn pop(&mut self) -> Option<Place>
        ensures { MatchOption result (self.new ≡ self.old) (λ p. self.old ≡ self.new ++ p ∷ []) }
    {
        if self.depth == 0 {
            return None;
        }
        self.depth -= 1;
        Some(self.places[self.depth])
    }
}
