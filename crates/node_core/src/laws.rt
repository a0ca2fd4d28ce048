//! What a node keeps through its steps.

ghost use Rattle.std.specs.Prelude.{◌≡◌, ◌≢◌, ℕ, ◌<◌, ◌≤◌, true, Bool, List, Contains, Option, Some, Err};
ghost use Rattle.repl_data.specs.declared.csn.Csn.{Csn};
ghost use Rattle.repl_data.specs.declared.csn.Uid.{Uid};
ghost use Rattle.repl_data.specs.declared.change.Body.{Body};
ghost use Rattle.repl_data.specs.declared.change.Change.{Change};
ghost use Rattle.repl_data.specs.declared.change.Update.{Update};
ghost use Rattle.repl_data.specs.Order.{number_of};
ghost use Rattle.repl_data.specs.Closed.{IsArrival};
ghost use Rattle.ldap_rules.specs.Verdict.{Verdict, Writes};
ghost use Rattle.vector_core.specs.declared.answers.AcquireFault.{AcquireFault};
ghost use Rattle.vector_core.specs.Vector.{entry_of, IsVector};
ghost use Rattle.node_core.specs.Node.{Node, front, vector_of, update_of};
ghost use Rattle.node_core.specs.Steps.{judge_view, begin_answer, after_begin, commit_answer, after_commit, ended, apply_answer, after_apply, acquire_fault, after_acquire, released, is_prev, offer};
ghost use Rattle.node_core.specs.Sound.{IsSoundNode, GoesOn, IsOpen, IsSoundWrite, IsSoundJudge};

use ldap_rules::rule_laws;
use vector_core::{AcquireFault, ApplyFault};

/// A node stays sound and goes on through each of its steps: nothing that it has taken is lost, the own entry of its
/// vector never falls, and nothing at or below that entry is committed later.
pub fn node_laws()
    ensures begin { (n : Node) (now : ℕ) → IsSoundNode n → IsSoundNode (after_begin n (begin_answer n now)) × GoesOn n (after_begin n (begin_answer n now)) }

    ensures commit { (n : Node) (life : ℕ) (csn : Csn) (verdict : Verdict) (now : ℕ) (fails : Bool) → IsSoundNode n → (life ≡ n.life → IsOpen n csn) → IsSoundNode (after_commit n csn verdict (commit_answer n life csn verdict now fails)) × GoesOn n (after_commit n csn verdict (commit_answer n life csn verdict now fails)) }

    // Settle and abort.
    ensures ended { (n : Node) (life : ℕ) (csn : Csn) → IsSoundNode n → IsSoundNode (ended n life csn) × GoesOn n (ended n life csn) }

    ensures apply { (n : Node) (from : ℕ) (u : Update) (now : ℕ) (fails : Bool) → IsSoundNode n → u.change.csn.seq < 65536 → u.change.csn.rid < 65536 → IsSoundNode (after_apply n u.change (apply_answer n from u now fails)) × GoesOn n (after_apply n u.change (apply_answer n from u now fails)) }

    ensures acquire { (n : Node) (from : ℕ) (answer : Option AcquireFault) → IsSoundNode n → IsSoundNode (after_acquire n from answer) × GoesOn n (after_acquire n from answer) }

    ensures release { (n : Node) (from : ℕ) → IsSoundNode n → IsSoundNode (released n from) × GoesOn n (released n from) }
{}

/// The vector of a node as a list.
pub fn vector_laws()
    // Its entries are those of the node.
    ensures entries { (n : Node) (o : ℕ) → entry_of (vector_of n) o ≡ front n o }

    // A sound node's has one entry of each originator, in rising order of replica id, and none that is zero.
    ensures is { (n : Node) → IsSoundNode n → IsVector (vector_of n) }
{}

/// What a node has taken stays an order of arrival, and so a closed set of changes.
pub fn arrival_laws()
    // A commit keeps it so, where what the verdict writes needs what is known and passes the check.
    ensures commit { (n : Node) (life : ℕ) (csn : Csn) (verdict : Verdict) (now : ℕ) (fails : Bool) → IsSoundNode n → (life ≡ n.life → IsOpen n csn) → IsArrival n.taken → ((target : Option Uid) (body : Body) → verdict ≡ Writes target body → IsSoundWrite n.taken target body) → IsArrival (after_commit n csn verdict (commit_answer n life csn verdict now fails)).taken }

    // So does an apply of any update.
    ensures apply { (n : Node) (from : ℕ) (u : Update) (now : ℕ) (fails : Bool) → IsSoundNode n → u.change.csn.seq < 65536 → u.change.csn.rid < 65536 → IsArrival n.taken → IsArrival (after_apply n u.change (apply_answer n from u now fails)).taken }
{}

/// What no step of a node answers: want of memory, which the calls of a node have beside its steps.
pub fn answer_laws()
    // An update is not answered so.
    ensures apply { (n : Node) (from : ℕ) (u : Update) (now : ℕ) (fails : Bool) → apply_answer n from u now fails ≢ Err ApplyFault.NoMemory }

    // Nor is a supplier that would begin.
    ensures acquire { (n : Node) (suffix : List ℕ) (from : ℕ) (vector : List Csn) (now : ℕ) → acquire_fault n suffix from vector now ≢ Some AcquireFault.NoMemory }
{}

/// What a node sends of a change.
pub fn update_laws()
    // Its prev is zero, or a CSN of the same originator below that of the change.
    ensures prev { (n : Node) (c : Change) → IsSoundNode n → is_prev (update_of n c).prev c.csn ≡ true }

    // What is offered is the update of a change that is taken and that the vector covers.
    ensures offered { (n : Node) (beyond : List Csn) (u : Update) → IsSoundNode n → offer n beyond ≡ Some u → (c : Change) × Contains n.taken c × (number_of c.csn ≤ number_of (front n c.csn.rid)) × (update_of n c ≡ u) }

    // It is the least of those that lie beyond the other vector.
    ensures least { (n : Node) (beyond : List Csn) (u : Update) (d : Change) → IsSoundNode n → offer n beyond ≡ Some u → Contains n.taken d → number_of d.csn ≤ number_of (front n d.csn.rid) → number_of (entry_of beyond d.csn.rid) < number_of d.csn → number_of u.change.csn ≤ number_of d.csn }
{}

/// The refusal table of LDAP.
pub fn judge_laws()
    // What it accepts needs what is known, and passes the check at each CSN above that.
    ensures sound { IsSoundJudge judge_view }
{
    rule_laws();
}
