//! What a script keeps: the world, the connections, and whom tickets owe a reply.

ghost use Rattle.std.specs.Prelude.{◌≡◌, ◌≤◌, ◌==◌, find, replicate, slice_index_or, slice_set, unwrap_or, IfOk, OnOk};
ghost use Rattle.std.specs.Option.{option_copied};
ghost use Rattle.dir_top.specs.declared.state.Owed.{Owed};
ghost use Rattle.dir_top.specs.State.{script_suffix, new_state, connection_in, with_connection, is_open, opened, holds_part, owed_for, without_owed, is_same_connection, still_waits};

use crate::client::Client;
use conn_core::OpKind;
use repl_data::{AttrKey, Ava, Bytes, Items, NoMemory, Rdn, Suffix, Val};
use std::alloc::Global;
use std::mem;
use world_core::World;

/// A connection of the script.
#[derive(Drop)]
pub enum Connection {
    Closed,
    Open {
        node: u16,
        /// How many connections had been opened before it.
        instance: u64,
        client: Client,
    },
}

/// Who waits for the answer to a ticket.
#[derive(Clone, Copy, Debug, Drop, Eq, PartialEq)]
pub struct Owed {
    pub ticket: u32,
    pub connection: u16,
    pub instance: u64,
    /// The message id of the write.
    pub id: u32,
    /// Which write it is.
    pub kind: OpKind,
}

/// A world, the connections to its nodes, and who waits for the answer to a ticket.
#[derive(Drop)]
pub struct State {
    pub world: World,
    /// 64 connections; connection C stands at place C - 1.
    pub connections: Items<Connection>,
    /// How many connections were ever opened.
    pub opened: u64,
    pub owed: Items<Owed>,
}

impl Connection {
    fn is_open(&self) -> bool
        ensures { result ≡ is_open self.now }
    {
        match self {
            Connection::Closed => false,
            Connection::Open { .. } => true,
        }
    }

    fn holds_part(&self) -> bool
        ensures { result ≡ holds_part self.now }
    {
        match self {
            Connection::Closed => false,
            Connection::Open { client, .. } => client.has_part(),
        }
    }

    fn is_same(&self, instance: u64) -> bool
        ensures { result ≡ is_same_connection instance self.now }
    {
        match self {
            Connection::Closed => false,
            Connection::Open { instance: now, .. } => *now == instance,
        }
    }
}

/// The 64 connections, of which none is open.
fn no_connections(alloc: Global) -> Result<Items<Connection>, NoMemory>
    ensures { IfOk result (λ connections. connections ≡ replicate 64 Connection.Closed) }
{
    let mut connections = Items::new(alloc);
    while connections.len() < 64 {
        connections.push(Connection::Closed)?;
    }
    Ok(connections)
}

/// Takes out the connection at this place, if there is one.
fn take_at(connections: &mut Vec<Connection>, place: usize) -> Connection
    ensures taken { result ≡ slice_index_or connections.old.items place Connection.Closed }
    ensures left { connections.new.items ≡ slice_set connections.old.items place Connection.Closed }
{
    if place < connections.len() {
        mem::replace(&mut connections[place], Connection::Closed)
    } else {
        Connection::Closed
    }
}

/// The suffix of all nodes of a script.
#[tactic(auto, unfolding(crate::specs::State::script_suffix))]
fn script_suffix(alloc: Global) -> Result<Suffix, NoMemory>
    ensures { IfOk result (λ suffix. suffix ≡ script_suffix) }
{
    let attr = AttrKey {
        name: Bytes::from_slice(alloc, b"dc")?,
    };
    let val = Val {
        key: Bytes::from_slice(alloc, b"example")?,
        spelled: Bytes::from_slice(alloc, b"example")?,
    };
    let mut avas = Items::new(alloc);
    avas.push(Ava { attr, val })?;
    Ok(Suffix {
        name: Bytes::from_slice(alloc, b"dc=example")?,
        rdn: Rdn { avas },
    })
}

fn keep_others(list: &mut Vec<Owed>, k: u32)
    ensures { list.new.items ≡ without_owed k list.old.items }
{
    list.retain(|o| o.ticket != k);
}

/// Those who do not wait for this ticket.
fn without_owed(owed: Items<Owed>, k: u32) -> Items<Owed>
    ensures { result ≡ without_owed k owed }
{
    let mut list = owed.into_vec();
    keep_others(&mut list, k);
    Items::from_vec(list)
}

impl State {
    /// Nodes 1 to `n`, and no connections.
    pub(crate) fn new(alloc: Global, n: u16) -> Result<State, NoMemory>
        requires { n ≤ 8 }
        ensures { IfOk result (λ state. state ≡ new_state n) }
    {
        let suffix = script_suffix(alloc)?;
        Ok(State {
            world: World::new(alloc, n, &suffix)?,
            connections: no_connections(alloc)?,
            opened: 0,
            owed: Items::new(alloc),
        })
    }

    /// Connection `c`, where it has a place.
    pub(crate) fn connection(&self, c: u16) -> Option<&Connection>
        ensures { unwrap_or (option_copied result) Connection.Closed ≡ connection_in self.now c }
    {
        self.connections.get(usize::from(c.saturating_sub(1)))
    }

    pub(crate) fn is_open(&self, c: u16) -> bool
        ensures { result ≡ is_open (connection_in self.now c) }
    {
        match self.connection(c) {
            Some(connection) => connection.is_open(),
            None => false,
        }
    }

    /// A part of a message has come on the connection.
    pub(crate) fn holds_part(&self, c: u16) -> bool
        ensures { result ≡ holds_part (connection_in self.now c) }
    {
        match self.connection(c) {
            Some(connection) => connection.holds_part(),
            None => false,
        }
    }

    pub(crate) fn set_connection(&mut self, c: u16, connection: Connection)
        ensures { self.new ≡ with_connection self.old c connection }
    {
        let place = usize::from(c.saturating_sub(1));
        if place < self.connections.len() {
            self.connections.set(place, connection);
        }
    }

    /// Takes a connection out, which leaves it closed.
    pub(crate) fn take_connection(&mut self, alloc: Global, c: u16) -> Connection
        ensures taken { result ≡ connection_in self.old c }
        ensures left { self.new ≡ with_connection self.old c Connection.Closed }
    {
        let place = usize::from(c.saturating_sub(1));
        let mut connections = mem::replace(&mut self.connections, Items::new(alloc)).into_vec();
        let taken = take_at(&mut connections, place);
        self.connections = Items::from_vec(connections);
        taken
    }

    /// Opens a connection to node `n`.
    pub(crate) fn open(&mut self, alloc: Global, c: u16, n: u16) -> Result<(), NoMemory>
        ensures { OnOk result (self.new ≡ opened self.old c n) }
    {
        let next = self.opened.checked_add(1).ok_or(NoMemory)?;
        let connection = Connection::Open {
            node: n,
            instance: self.opened,
            client: Client::new(alloc)?,
        };
        self.set_connection(c, connection);
        self.opened = next;
        Ok(())
    }

    /// Who waits for the answer to a ticket. Looks at the tickets that are there, of which a node has
    /// at most 1,024.
    pub(crate) fn owed_for(&self, k: u32) -> Option<Owed>
        ensures { result ≡ owed_for self.now k }
    {
        match owed_in(self.owed.as_slice(), k) {
            Some(owed) => Some(*owed),
            None => None,
        }
    }

    pub(crate) fn still_waits(&self, owed: Owed) -> bool
        ensures { result ≡ still_waits self.now owed }
    {
        match self.connection(owed.connection) {
            Some(connection) => connection.is_same(owed.instance),
            None => false,
        }
    }

    /// Nobody waits for the ticket any more.
    pub(crate) fn forget(&mut self, alloc: Global, k: u32)
        ensures { self.new ≡ record self.old { owed = without_owed k self.old.owed } }
    {
        let owed = mem::replace(&mut self.owed, Items::new(alloc));
        self.owed = without_owed(owed, k);
    }
}

fn owed_in(owed: &[Owed], k: u32) -> Option<&Owed>
    ensures { option_copied result ≡ find (λ (o : Owed). o.ticket == k) owed.now }
{
    owed.iter().find(|o| o.ticket == k)
}
