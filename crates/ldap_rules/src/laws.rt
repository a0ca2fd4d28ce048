//! What the rules write and refuse.

ghost use Rattle.std.specs.Prelude.{◌≡◌, ◌≢◌, ℕ, true, false, None, Option, List};
ghost use Rattle.std.specs.List.{AllByRecursion, list_all};
ghost use Rattle.repl_data.specs.declared.csn.Csn.{Csn};
ghost use Rattle.repl_data.specs.declared.csn.Uid.{Uid};
ghost use Rattle.repl_data.specs.declared.change.Body.{Body};
ghost use Rattle.repl_data.specs.declared.change.Change.{Change};
ghost use Rattle.repl_data.specs.declared.change.Suffix.{Suffix};
ghost use Rattle.repl_data.specs.Check.{fault_of, is_empty};
ghost use Rattle.repl_data.specs.Closed.{is_rooted, is_sound};
ghost use Rattle.repl_data.specs.View.{DirectoryView, view_of};
ghost use Rattle.ldap_types.specs.declared.reply.Identity.{Identity};
ghost use Rattle.ldap_types.specs.declared.reply.LdapResult.{LdapResult};
ghost use Rattle.ldap_types.specs.declared.request.Op.TheVariants as op;
ghost use Rattle.ldap_types.specs.declared.request.RawMod.{RawMod};
ghost use Rattle.ldap_types.specs.declared.request.Request.{Request};
ghost use Rattle.dn_text.specs.Laws.{IsReadablePart};
ghost use Rattle.ldap_rules.specs.Carried.{CarriesKeys, AllCarryKeys};
ghost use Rattle.ldap_rules.specs.Verdict.{verdict_of, Writes, Refuses};
ghost use Rattle.ldap_rules.specs.Laws.{change_at, needed_at, IsDrawnAbove, has_entry, ModifiesEach};

use dn_text::dn_laws;

/// What the rules write may be taken, and what they refuse has a code.
pub fn rule_laws()
    // On the view of sound changes it passes `check`, at each CSN of a supplier that is above the entry that it
    // needs.
    ensures sound { (suffix : Suffix) (changes : List Change) (r : Request) (bound : Identity) (target : Option Uid) (body : Body) (c : Csn) → list_all is_sound changes ≡ true → verdict_of (view_of suffix changes) r bound ≡ Writes target body → IsDrawnAbove c (needed_at c target body) → fault_of (change_at c target body) ≡ None }

    // The entry that it needs is the suffix entry, or the view has it.
    ensures there { (v : DirectoryView) (r : Request) (bound : Identity) (target : Option Uid) (body : Body) (c : Csn) → verdict_of v r bound ≡ Writes target body → has_entry v (needed_at c target body) ≡ true }

    // So it is known in the changes of which the view is.
    ensures known { (suffix : Suffix) (changes : List Change) (r : Request) (bound : Identity) (target : Option Uid) (body : Body) (c : Csn) → verdict_of (view_of suffix changes) r bound ≡ Writes target body → is_rooted changes (change_at c target body) ≡ true }

    // Which entry that is does not hang on the CSN.
    ensures one_need { (v : DirectoryView) (r : Request) (bound : Identity) (target : Option Uid) (body : Body) (c d : Csn) → verdict_of v r bound ≡ Writes target body → needed_at c target body ≡ needed_at d target body }

    // Where the changes carry the keys of their spellings, and the suffix does, so does it.
    ensures carries { (suffix : Suffix) (changes : List Change) (r : Request) (bound : Identity) (target : Option Uid) (body : Body) → list_all is_sound changes ≡ true → AllCarryKeys changes → AllByRecursion IsReadablePart suffix.rdn.avas → verdict_of (view_of suffix changes) r bound ≡ Writes target body → CarriesKeys body }

    // A modify that is written has modifications, and of each attribute that they name one stands in the body, whether
    // it changes what the entry has or not.
    ensures modifies { (v : DirectoryView) (r : Request) (bound : Identity) (object : List ℕ) (given : List RawMod) (target : Option Uid) (body : Body) → r.op ≡ op.Modify object given → verdict_of v r bound ≡ Writes target body → (is_empty given ≡ false) × ModifiesEach given body }

    // No refusal has the code 0.
    ensures refuses { (v : DirectoryView) (r : Request) (bound : Identity) (answer : LdapResult) → verdict_of v r bound ≡ Refuses answer → answer.code.number ≢ 0 }
{
    dn_laws();
}
