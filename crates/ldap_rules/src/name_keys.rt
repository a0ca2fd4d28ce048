//! Names by their keys.

ghost use Rattle.std.specs.Prelude.{◌≡◌, List};
ghost use Rattle.repl_data.specs.declared.csn.Uid.{Uid};
ghost use Rattle.repl_data.specs.declared.change.Rdn.{Rdn};
ghost use Rattle.repl_data.specs.Order.{rdn_key};
ghost use Rattle.repl_data.specs.Facts.{EntryFacts};
ghost use Rattle.repl_data.specs.View.{DirectoryView, child_of};
ghost use Rattle.dn_text.specs.declared.name.Dn.{Dn};
ghost use Rattle.dn_text.specs.Below.{keys_of};
ghost use Rattle.ldap_rules.specs.SameNames.{place_of_name, contenders_for};

/// Names with equal keys are one name, however they are spelled.
pub fn place_laws()
    // They lead to the same place in a view: to the same entry, or to the same nearest one above.
    ensures place { (v : DirectoryView) (a b : Dn) → keys_of a.rdns ≡ keys_of b.rdns → place_of_name v a ≡ place_of_name v b }

    // The same child of an entry shows them,
    ensures child { (v : DirectoryView) (parent : Uid) (a b : Rdn) → rdn_key a ≡ rdn_key b → child_of v parent a ≡ child_of v parent b }

    // and the same entries contend for them.
    ensures contenders { (present : List EntryFacts) (parent : Uid) (a b : Rdn) → rdn_key a ≡ rdn_key b → contenders_for present parent a ≡ contenders_for present parent b }
{}
