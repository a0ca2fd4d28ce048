//! `World`.

ghost use Rattle.std.specs.Prelude.{◌≡◌, ◌≤◌, true, is_some, option_map, IfOk, OnErr};
ghost use Rattle.repl_data.specs.declared.change.Suffix.{Suffix};
ghost use Rattle.node_core.specs.Steps.{judge_view};
ghost use Rattle.world_core.specs.World.{Ticket, new_world, is_node, step, ticket_in, session_in, update_in};
ghost use Rattle.world_core.specs.Laws.{MayHappen, IsHonest, IsLawful, IsHonestRun, HasRun, HoldClosed, AreFormed, OwnEntriesExact, AllAgree, ShowTheSame};
ghost use Rattle.world_core.specs.State.{world_of};
ghost use Rattle.world_core.specs.Taken.{AreTaken, IsKept};
ghost use Rattle.world_core.specs.Sessions.{OffersWelcome, OffersTaken};

use crate::event::{Event, Happened};
use crate::nodes::new_nodes;
use crate::state::WorldState;
use node_core::judge_laws;
use repl_data::{NoMemory, Suffix};
use std::alloc::Global;
use std::marker::Model;

/// Up to eight nodes, and what passes between them.
///
/// Contracts see the world of the definitions. It is always one that may come: each node is sound,
/// and each ticket that is not committed is open at its node.
#[derive(Debug)]
pub struct World {
    pub(crate) state: WorldState,
}

impl Model for World {
    ghost use Rattle.std.specs.Coded.{codes};
    ghost use Rattle.ldap_types.specs.contracts.request.Filter as filter;
    ghost use Rattle.world_core.specs.World.{World};

    ghost Value = { World };

    ghost coded = { Prim.hlevel (codes, filter.the_row.coded) };

    ghost use Rattle.world_core.specs.State.{world_of};
    ghost use Rattle.world_core.specs.Taken.{IsKept};

    ghost view = { λ w. world_of w.state };

    ghost invariant = { λ w. IsKept (world_of w.state) };
}

impl Drop for World {
    /// Gives up the tickets that are left.
    fn drop(self) {
        let World { state } = self;
        state.end();
    }
}

impl World {
    /// What the world consists of.
    pub(crate) fn into_state(self) -> WorldState
        ensures state { world_of result ≡ self }
        ensures kept { IsKept (world_of result) }
    {
        let World { state } = self;
        state
    }

    /// A world of nodes 1 to `n`, whose directories have this suffix.
    pub fn new(alloc: Global, n: u16, suffix: &Suffix) -> Result<World, NoMemory>
        requires { n ≤ 8 }
        ensures { IfOk result (λ world. world ≡ new_world suffix.now n) }
    {
        let nodes = new_nodes(alloc, n, suffix)?;
        Ok(World {
            state: WorldState {
                nodes,
                clock: 0,
                tickets: Vec::new(alloc),
                sessions: Vec::new(alloc),
                offered: Vec::new(alloc),
            },
        })
    }

    /// A world without nodes. Takes no memory.
    pub fn empty(alloc: Global) -> World
        ensures { (suffix : Suffix) → result ≡ new_world suffix 0 }
    {
        World {
            state: WorldState {
                nodes: Vec::new(alloc),
                clock: 0,
                tickets: Vec::new(alloc),
                sessions: Vec::new(alloc),
                offered: Vec::new(alloc),
            },
        }
    }

    /// What holds of every world; and, where each update that a client fed was one that some node had
    /// offered, what holds of an honest one.
    pub fn laws(&self)
        // It came from a new world by deeds that are allowed: each law of runs is one of this world.
        ensures came { HasRun judge_view self.now }

        // Each node is sound, and each ticket of its present life pending there.
        ensures lawful { IsLawful self.now }

        // The change of each committed ticket is taken at its node.
        ensures taken { AreTaken self.now.nodes self.now.tickets }

        // What each node has taken is closed.
        ensures closed { HoldClosed self.now }

        // Each update that was offered is well formed.
        ensures forms { AreFormed self.now }

        // Each node's own entry is its greatest change with none pending at or below it.
        ensures own_entries { OwnEntriesExact self.now }

        // Where it came by an honest run, it is honest: each node holds a prefix of each originator's changes, no vector runs
        // ahead, and what was offered is committed, with the greatest CSN below it.
        ensures honest { (run : HasRun judge_view self.now) → IsHonestRun judge_view (new_world run.suffix run.count) run.deeds → IsHonest self.now }

        // In an honest one, nodes with equal vectors and nothing pending have taken the same changes.
        ensures agreement { IsHonest self.now → AllAgree self.now }

        // They show the same entries.
        ensures views { IsHonest self.now → ShowTheSame self.now }

        // What a node offers to a consumer that has followed it is not refused there for what is lacking, now or later.
        ensures welcome { IsHonest self.now → OffersWelcome judge_view self.now }

        // It is taken or a duplicate there, where its deliverer holds the consumer and its time is at most a day ahead.
        ensures progress { IsHonest self.now → OffersTaken judge_view self.now }
    {
        judge_laws();
        // For the prover alone: what the type keeps is known once the world is looked at.
        let _ = &self.state;
    }

    /// The time that all nodes share, in seconds since 1970.
    pub fn clock(&self) -> u32
        ensures { result ≡ self.now.clock }
    {
        self.state.clock
    }

    /// Lets one event happen. Where memory is wanting, the world stays as it was.
    pub fn step(&mut self, alloc: Global, event: Event) -> Result<Happened, NoMemory>
        requires { MayHappen self.old event }
        ensures ok { IfOk result (λ happened. step judge_view self.old event ≡ record { world = self.new; happened = happened }) }
        ensures err { OnErr result (self.new ≡ self.old) }
        ensures honest { IsHonest self.old → IsHonest self.new }
    {
        self.state.step(alloc, event)
    }

    /// There is a node `n`.
    pub fn has_node(&self, n: u16) -> bool
        ensures { result ≡ is_node self.now n }
    {
        self.state.has_node(n)
    }

    /// Whether ticket `k` is committed, if there is one. Looks at each ticket of a lower number.
    pub fn ticket(&self, k: u32) -> Option<bool>
        ensures { result ≡ option_map (λ (t : Ticket). t.committed) (ticket_in self.now k) }
    {
        self.state.ticket(k)
    }

    /// Node `a` has a session with node `b`.
    pub fn session(&self, a: u16, b: u16) -> bool
        ensures { result ≡ is_some (session_in self.now a b) }
    {
        self.state.session(a, b)
    }

    /// There is an update `u`.
    pub fn has_update(&self, u: u64) -> bool
        ensures { result ≡ is_some (update_in self.now u) }
    {
        self.state.has_update(u)
    }
}
