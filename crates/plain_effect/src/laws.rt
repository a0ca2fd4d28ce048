//! The plain effect of what the rules accept.

ghost use Rattle.std.specs.Prelude.{◌≡◌, ◌∷◌, ◌++◌, [], ℕ, List, None, Ok, Some};
ghost use Rattle.repl_data.specs.declared.csn.Csn.{Csn};
ghost use Rattle.repl_data.specs.declared.csn.Uid.{Uid};
ghost use Rattle.repl_data.specs.declared.change.Body.{Body};
ghost use Rattle.repl_data.specs.declared.change.Change.{Change};
ghost use Rattle.repl_data.specs.declared.change.Suffix.{Suffix};
ghost use Rattle.repl_data.specs.Closed.{IsClosed};
ghost use Rattle.repl_data.specs.Plain.{plain_effect};
ghost use Rattle.repl_data.specs.View.{view_of};
ghost use Rattle.ldap_types.specs.declared.reply.Identity.{Identity};
ghost use Rattle.ldap_types.specs.declared.request.Control.{Control};
ghost use Rattle.ldap_types.specs.declared.request.RawAttr.{RawAttr};
ghost use Rattle.ldap_types.specs.declared.request.RawMod.{RawMod};
ghost use Rattle.ldap_rules.specs.Add.{add_verdict};
ghost use Rattle.ldap_rules.specs.Modify.{modify_verdict};
ghost use Rattle.ldap_rules.specs.Laws.{change_at, needed_at, IsDrawnAbove};
ghost use Rattle.plain_effect.specs.Above.{IsAbove};
ghost use Rattle.plain_effect.specs.Commit.{CommitsPlainly};

use node_core::judge_laws;

/// An add that the rules accept, at a CSN above all changes of a closed set, has its plain effect: the view of
/// the set with the change is the view before with one entry more, of the name and the values of the body.
pub fn add_effect_law()
    ensures { (suffix : Suffix) (xs : List Change) (controls : List Control) (bound : Identity) (object : List ℕ) (given : List RawAttr) (body : Body) (c : Csn)
        → IsClosed xs → IsAbove c xs → add_verdict (view_of suffix xs) controls bound object given ≡ Ok body → IsDrawnAbove c (needed_at c None body)
        → plain_effect (view_of suffix xs) (change_at c None body) ≡ Some (view_of suffix (xs ++ change_at c None body ∷ [])) }
{}

/// A modify that the rules accept, at a CSN above all changes of a closed set, has its plain effect: the view of the
/// set with the change is the view before, but that its entry shows what the modifications of the body leave of its
/// values, one after the other as RFC 4511, section 4.6 says it.
pub fn modify_effect_law()
    ensures { (suffix : Suffix) (xs : List Change) (controls : List Control) (bound : Identity) (object : List ℕ) (given : List RawMod) (u : Uid) (body : Body) (c : Csn)
        → IsClosed xs → IsAbove c xs → modify_verdict (view_of suffix xs) controls bound object given ≡ Ok (u, body) → IsDrawnAbove c u
        → plain_effect (view_of suffix xs) (change_at c (Some u) body) ≡ Some (view_of suffix (xs ++ change_at c (Some u) body ∷ [])) }
{}

/// A commit of an add or a modify, whose CSN is above all that the node has taken: one change more is taken, and the
/// view after is its plain effect on the view before.
pub fn commit_effect_law()
    ensures plain { CommitsPlainly }
{
    judge_laws();
}
