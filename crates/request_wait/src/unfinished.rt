//! The bytes of an unfinished request, with the place in them.

ghost use Rattle.std.specs.Prelude.{◌≡◌, ◌↔◌, ◌++◌, [], Err, IsTrue, OnOk, OnErr, length};
ghost use Rattle.ber_core.specs.Window.{More as Missing};
ghost use Rattle.ldap_requests.specs.Grammar.{request_at};

use crate::waiting::Waiting;
use ldap_types::{Bytes, NoMemory};
use std::alloc::Global;
use std::marker::Model;

/// The bytes of a message that may not be whole yet, and how far they were looked at. Contracts see the bytes.
#[derive(Debug, Drop)]
pub struct Unfinished {
    bytes: Bytes,
    waiting: Waiting,
}

impl Model for Unfinished {
    ghost use Rattle.std.specs.Prelude.{List, ℕ};
    ghost use Rattle.std.specs.Coded.{coded_list, coded_ℕ};

    ghost Value = { List ℕ };

    ghost coded = { coded_list coded_ℕ };

    ghost use Rattle.request_wait.specs.Waiting.{IsPlaceIn};

    ghost view = { λ u. u.bytes };

    ghost invariant = { λ u. IsPlaceIn u.waiting u.bytes };
}

/// The bytes, of which none was looked at.
impl From<Bytes> for Unfinished {
    ghost from_gives = { λ bytes unfinished. unfinished ≡ bytes };

    fn from(bytes: Bytes) -> Unfinished {
        Unfinished {
            bytes,
            waiting: Waiting::new(),
        }
    }
}

impl Unfinished {
    /// No bytes. Takes no memory.
    pub fn new(alloc: Global) -> Unfinished
        ensures { result ≡ [] }
    {
        Unfinished::from(Bytes::new(alloc))
    }

    pub fn as_slice(&self) -> &[u8]
        ensures { result.now ≡ self.now }
    {
        self.bytes.as_slice()
    }

    pub fn len(&self) -> usize
        ensures { result ≡ length self.now }
    {
        self.bytes.len()
    }

    pub fn is_empty(&self) -> bool
        ensures { IsTrue result ↔ (self.now ≡ []) }
    {
        self.bytes.is_empty()
    }

    /// Appends a copy of the piece.
    pub fn extend_from_slice(&mut self, piece: &[u8]) -> Result<(), NoMemory>
        ensures ok { OnOk result (self.new ≡ self.old ++ piece.now) }
        ensures err { OnErr result (self.new ≡ self.old) }
    {
        let Ok(()) = self.bytes.extend_from_slice(piece) else {
            return Err(NoMemory);
        };
        Ok(())
    }

    /// Drops the bytes. Takes no memory.
    pub fn clear(&mut self)
        ensures { self.new ≡ [] }
    {
        self.bytes.clear();
        self.waiting = Waiting::new();
    }

    /// True: no whole request and no fault stands at the front yet, and a reader would ask for more
    /// bytes. False: it has to be asked.
    ///
    /// Over all calls, each element of the message is looked at once when all of it is there, and each
    /// call looks at one that is not, in constant time.
    pub fn waits(&mut self) -> bool
        ensures more { IsTrue result → request_at 2097152 self.old ≡ Err Missing }
        ensures same { self.new ≡ self.old }
    {
        self.waiting.goes_on(self.bytes.as_slice())
    }
}
