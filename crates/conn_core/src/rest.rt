//! The rest of a reply that was begun to be taken.

ghost use Rattle.std.specs.Prelude.{◌≡◌, ◌≢◌, ◌++◌, [], true, false, length, min, take, drop};
ghost use Rattle.conn_core.specs.Waiting.{waiting};

use crate::conn::Conn;
use ldap_types::Bytes;
use std::marker::Model;

/// The rest of a reply that was begun to be sent. Contracts see its bytes.
#[derive(Debug, Drop)]
pub(crate) struct Rest {
    reply: Option<Bytes>,
    sent: usize,
}

impl Model for Rest {
    ghost use Rattle.std.specs.Prelude.{List, ℕ, [], ◌≤◌, length, drop};
    ghost use Rattle.std.specs.Option.{unwrap_or};

    ghost Value = { List ℕ };

    ghost view = { λ r. drop r.sent (unwrap_or r.reply []) };

    ghost invariant = { λ r. r.sent ≤ length (unwrap_or r.reply []) };
}

impl Rest {
    pub(crate) fn none() -> Rest
        ensures { result ≡ [] }
    {
        Rest {
            reply: None,
            sent: 0,
        }
    }

    fn of(reply: Bytes) -> Rest
        ensures { result ≡ reply }
    {
        Rest {
            reply: Some(reply),
            sent: 0,
        }
    }

    fn is_empty(&self) -> bool
        ensures none { result ≡ true → self.now ≡ [] }
        ensures some { result ≡ false → self.now ≢ [] }
    {
        let Some(reply) = &self.reply else {
            return true;
        };
        if self.sent < reply.len() {
            return false;
        }
        true
    }

    /// Copies the first of the bytes into the front of `out`, and gives how many.
    fn copy(&mut self, out: &mut [u8]) -> usize
        ensures count { result ≡ min (length self.old) (length out.old) }
        ensures moved { out.new ≡ take result self.old ++ drop result out.old }
        ensures rest { self.new ≡ drop result self.old }
    {
        let Some(reply) = &self.reply else {
            return 0;
        };
        let bytes = &reply.as_slice()[self.sent..];
        let count = bytes.len().min(out.len());
        out[..count].copy_from_slice(&bytes[..count]);
        self.sent += count;
        count
    }

    /// Begins the next reply that has bytes, where none is begun. Gives whether there are bytes.
    fn refill(&mut self, conn: &mut Conn) -> bool
        ensures bytes { waiting self.new conn.new.replies ≡ waiting self.old conn.old.replies }
        ensures some { result ≡ true → self.new ≢ [] }
        ensures none { result ≡ false → waiting self.old conn.old.replies ≡ [] }
        ensures others { conn.new ≡ record conn.old { replies = conn.new.replies } }
    {
        while self.is_empty() {
            let Some(reply) = conn.next_reply() else {
                return false;
            };
            *self = Rest::of(reply);
        }
        true
    }

    /// Moves the first bytes that wait into the front of `out`, and gives how many: those of the reply
    /// that was begun, and then those of the connection's replies.
    pub(crate) fn take(&mut self, conn: &mut Conn, out: &mut [u8]) -> usize
        ensures count { result ≡ min (length (waiting self.old conn.old.replies)) (length out.old) }
        ensures moved { out.new ≡ take result (waiting self.old conn.old.replies) ++ drop result out.old }
        ensures rest { waiting self.new conn.new.replies ≡ drop result (waiting self.old conn.old.replies) }
        ensures others { conn.new ≡ record conn.old { replies = conn.new.replies } }
    {
        let mut count = 0;
        while count < out.len() && self.refill(conn) {
            count += self.copy(&mut out[count..]);
        }
        count
    }
}
