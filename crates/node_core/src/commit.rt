//! A commit, by its cases in order.

ghost use Rattle.std.specs.Prelude.{Option, false, ◌≡◌, ◌≢◌, Ok, Err, Some, None, option_map, if◌then◌else◌, OnOk, OnErr, MatchResult, ◌++◌, ◌∷◌, [], Contains};
ghost use Rattle.repl_data.specs.Order.{csn_eq};
ghost use Rattle.repl_data.specs.declared.csn.Uid.{Uid};
ghost use Rattle.repl_data.specs.declared.change.Body.{Body};
ghost use Rattle.repl_data.specs.Closed.{needed, IsArrival};
ghost use Rattle.ldap_rules.specs.Verdict.{Writes, IsVerdict};
ghost use Rattle.pending_core.specs.Pending.{without, IsAbove};
ghost use Rattle.ldap_rules.specs.Laws.{target_at};
ghost use Rattle.node_core.specs.Steps.{csn_for, moment_of, with_csn, takes, judge_view, verdict_at};
ghost use Rattle.node_core.specs.Calls.{Commits, CommitsUnder, IsWrite, IsPending, IsPendingTaken};
ghost use Rattle.node_core.specs.Kept.{IsChosen};
ghost use Rattle.node_core.specs.Sound.{IsOpen, IsSoundWrite};

use crate::apply::{needed, raised};
use crate::fault::CommitFault;
use crate::laws::judge_laws;
use crate::node::{NodeState, draw};
use crate::ticket::{Receipt, Ticket};
use ldap_rules::{JudgeFault, Judged, judge};
use ldap_types::{Identity, Request};
use pending_core::{Generator, PendingList};
use repl_data::{Body, Change, Csn, NoMemory, Uid};
use std::alloc::Global;
use urp_tree::tree_laws;

/// The entry that a write changes: that of its own CSN, where it is an add.
fn target_at(target: Option<Uid>, csn: Csn) -> Uid
    ensures { result ≡ target_at csn target }
{
    match target {
        Some(id) => id,
        None => Uid { csn },
    }
}

/// Puts a drawn CSN in the place of a pending one. Nothing changes where it is the same.
fn redraw(pending: &mut PendingList, generator: &mut Generator, old: Csn, new: Csn)
    requires held { Contains pending.old old }
    requires above { csn_eq old new ≡ false → IsAbove pending.old new }
    ensures pending { pending.new ≡ (if csn_eq old new then pending.old else without pending.old old ++ new ∷ []) }
    ensures last { generator.new ≡ (if csn_eq old new then generator.old else moment_of new) }
{
    if old.compare(new).is_eq() {
        return;
    }
    pending.replace(old, new);
    generator.time = new.time;
    generator.seq = new.seq;
}

impl NodeState {
    /// The CSN that a change takes which needs the entry `id`: that of the ticket where the id is
    /// below it, else the next one.
    fn csn_for(&self, csn: Csn, id: Uid, now: u32) -> Option<Csn>
        ensures { result ≡ csn_for self.now csn id now }
    {
        if id.csn.compare(csn).is_lt() {
            return Some(csn);
        }
        let mut generator = self.generator;
        draw(&mut generator, self.rid, now)
    }

    /// Takes a change of the node's own, whose CSN is a pending one or takes the place of one.
    fn take_own(&mut self, alloc: Global, old: Csn, change: Change) -> Result<(), NoMemory>
        requires open { IsOpen self.old old }
        requires chosen { IsChosen self.old old change.csn }
        requires arrives { IsArrival (self.old.taken ++ change ∷ []) }
        ensures ok { OnOk result (self.new ≡ takes (with_csn self.old old change.csn) change) }
        ensures err { OnErr result (self.new ≡ self.old) }
    {
        // For the prover alone: numbers that are read are known to be within their range.
        let _numbers = (
            change.csn.time,
            change.csn.seq,
            change.csn.rid,
            change.csn.sub,
        );
        self.log.reserve(alloc, 1)?;
        let heads = raised(alloc, &self.heads, change.csn)?;
        tree_laws();
        let plan = self.view.plan(alloc, &change)?;
        redraw(&mut self.pending, &mut self.generator, old, change.csn);
        self.view.install(plan);
        self.heads = heads;
        self.log.append(change);
        Ok(())
    }

    /// Carries out a write that the rules accept.
    fn commit_judged(
        &mut self,
        alloc: Global,
        ticket: Ticket,
        target: Option<Uid>,
        body: Body,
        now: u32,
    ) -> Result<Receipt, (Ticket, CommitFault)>
        requires life { ticket.life ≡ self.old.life }
        requires open { IsOpen self.old ticket.csn }
        requires sound { IsSoundWrite self.old.taken target body }
        ensures step { CommitsUnder self.old ticket (Writes target body) now result self.new }
        ensures keeper { MatchResult result (λ _. Unit {0}) (λ e. e.1 ≢ CommitFault.KeeperFault) }
    {
        let id = needed(target_at(target, ticket.csn), &body);
        let Some(csn) = self.csn_for(ticket.csn, id, now) else {
            let last = (self.generator.time, self.generator.seq);
            return Err((ticket, CommitFault::Exhausted { last }));
        };
        let number = self.log.len() as u64;
        let change = Change {
            csn,
            target: target_at(target, csn),
            body,
        };
        if self.take_own(alloc, ticket.csn, change).is_err() {
            return Err((ticket, CommitFault::NoMemory));
        }
        let Ticket { csn: _, life } = ticket;
        Ok(Receipt { csn, life, number })
    }

    /// What the rules make of a request, on the view of what the node has taken.
    #[tactic(auto, using(ldap_rules::proofs::Ops::change_judged))]
    fn judge(&self, alloc: Global, request: &Request, bound: Identity) -> Result<Judged, JudgeFault>
        requires { IsWrite request.now bound }
        ensures verdict { IsVerdict result (verdict_at judge_view self.now request.now bound) }
        ensures sound { (target : Option Uid) (body : Body) → verdict_at judge_view self.now request.now bound ≡ Writes target body → IsSoundWrite self.now.taken target body }
    {
        judge_laws();
        self.laws();
        judge(alloc, self.view(), request, bound)
    }

    /// Carries out a write under a ticket, at the time `now` in seconds since 1970. Where it is
    /// refused, the ticket is handed back, and its CSN stays pending.
    ///
    /// A change of an entry whose id is not below the ticket's CSN takes a new CSN, which becomes
    /// pending in place of the ticket's. What is committed can always be settled.
    pub fn commit(
        &mut self,
        alloc: Global,
        ticket: Ticket,
        request: &Request,
        bound: Identity,
        now: u32,
    ) -> Result<Receipt, (Ticket, CommitFault)>
        requires open { ticket.life ≡ self.old.life → IsPending self.old ticket.csn }
        requires uncommitted { ticket.life ≡ self.old.life → IsPendingTaken self.old ticket.csn → ⊥ }
        requires write { IsWrite request.now bound }
        ensures step { Commits judge_view self.old ticket request.now bound now result self.new }
        ensures keeper { MatchResult result (λ _. Unit {0}) (λ e. e.1 ≢ CommitFault.KeeperFault) }
    {
        if ticket.life != self.life {
            let life = ticket.life;
            let node_life = self.life;
            return Err((ticket, CommitFault::Stale { life, node_life }));
        }
        match self.judge(alloc, request, bound) {
            Ok(Judged::Write { target, body }) => {
                self.commit_judged(alloc, ticket, target, body, now)
            }
            Ok(Judged::Answer(answer)) => Err((ticket, CommitFault::Refused(answer))),
            Err(JudgeFault::NoMemory) => Err((ticket, CommitFault::NoMemory)),
            Err(JudgeFault::Refused(answer)) => Err((ticket, CommitFault::Refused(answer))),
        }
    }
}
