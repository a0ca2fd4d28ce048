//! The place and its steps, beside bytes that are kept elsewhere.

ghost use Rattle.std.specs.Prelude.{◌≡◌, IsTrue, Err};
ghost use Rattle.ber_core.specs.Window.{More as Missing};
ghost use Rattle.ldap_requests.specs.Grammar.{request_at};
ghost use Rattle.request_wait.specs.Waiting.{StaysInBytes};

use crate::levels::Levels;
use crate::next::{Next, look};
use crate::part::Part;
use crate::place::Place;
use ldap_types::MESSAGE_LIMIT;

/// How far the bytes of a message were looked at: a place in them, and the elements around it.
#[derive(Debug, Drop)]
pub struct Waiting {
    here: Place,
    around: Levels,
}

/// What came of one step.
enum Step {
    /// The place is another one.
    Moved,
    /// Some bytes of the element at the place have not come yet.
    Waits,
    /// Nothing is known.
    Unsure,
}

impl Waiting {
    ghost use Rattle.request_wait.specs.Waiting.{IsPlaceIn};
    ghost use Rattle.std.specs.Prelude.{List, ℕ};

    /// Nothing was looked at yet.
    pub fn new() -> Waiting
        ensures { (bytes : List ℕ) → IsPlaceIn result bytes }
    {
        let here = Place {
            part: Part::Start,
            start: 0,
            at: 0,
            end: MESSAGE_LIMIT,
        };
        Waiting {
            here,
            around: Levels::new(here),
        }
    }

    fn step(&mut self, bytes: &[u8]) -> Step
        requires { IsPlaceIn self.old bytes.now }
        ensures keeps { IsPlaceIn self.new bytes.now }
        ensures waits { result ≡ Step.Waits → request_at 2097152 bytes.now ≡ Err Missing }
    {
        match look(self.here, bytes) {
            Next::Waits => Step::Waits,
            Next::Unsure => Step::Unsure,
            Next::Goes(here) => {
                self.here = here;
                Step::Moved
            }
            Next::Enters(inner, rest) => {
                if !self.around.push(rest) {
                    return Step::Unsure;
                }
                self.here = inner;
                Step::Moved
            }
            Next::Leaves => match self.around.pop() {
                Some(rest) => {
                    self.here = rest;
                    Step::Moved
                }
                None => Step::Unsure,
            },
        }
    }

    /// Goes on over the bytes of the message so far, of which the first ones are those of the last call.
    ///
    /// True: no whole message and no fault stands there yet. Each element is looked at once when all of
    /// it is there, and each call looks at one that is not, in constant time.
    pub fn goes_on(&mut self, bytes: &[u8]) -> bool
        requires { IsPlaceIn self.old bytes.now }
        ensures keeps { IsPlaceIn self.new bytes.now }
        ensures more { IsTrue result → request_at 2097152 bytes.now ≡ Err Missing }
    {
        for _ in 0..u64::MAX {
            match self.step(bytes) {
                Step::Moved => {}
                Step::Waits => return true,
                Step::Unsure => return false,
            }
        }
        false
    }
}

/// A place in some bytes is one in these bytes with others behind them.
pub fn waiting_laws()
    ensures { StaysInBytes }
{}
