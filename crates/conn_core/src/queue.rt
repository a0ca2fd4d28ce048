//! Replies that wait.

ghost use Rattle.std.specs.Prelude.{◌≡◌, ◌+◌, ◌∷◌, ◌++◌, [], OnOk, OnErr, MatchOption};

use ldap_types::{Bytes, NoMemory};
use std::alloc::Global;
use std::collections::VecDeque;
use std::marker::Model;

/// Replies that wait to be sent, in their order.
#[derive(Debug, Drop)]
pub struct ReplyQueue {
    inner: VecDeque<Bytes>,
}

impl Model for ReplyQueue {
    ghost use Rattle.std.specs.Prelude.{List, ℕ};

    ghost Value = { List (List ℕ) };

    ghost view = { λ q. q.inner.items };
}

impl ReplyQueue {
    pub(crate) fn new(alloc: Global) -> ReplyQueue
        ensures { result ≡ [] }
    {
        ReplyQueue {
            inner: VecDeque::new(alloc),
        }
    }

    pub(crate) fn push(&mut self, reply: Bytes) -> Result<(), NoMemory>
        ensures ok { OnOk result (self.new ≡ self.old ++ reply ∷ []) }
        ensures err { OnErr result (self.new ≡ self.old) }
    {
        match self.inner.push_back(reply) {
            Ok(()) => Ok(()),
            Err(_refused) => Err(NoMemory),
        }
    }

    pub(crate) fn pop(&mut self) -> Option<Bytes>
        ensures { MatchOption result ((self.old ≡ []) × (self.new ≡ [])) (λ reply. self.old ≡ reply ∷ self.new) }
    {
        self.inner.pop_front()
    }
}
