//! What modifications do, and what is written of them.

ghost use Rattle.std.specs.Prelude.{◌≡◌, ℕ, List, fold, map};
ghost use Rattle.std.specs.List.{AllByRecursion};
ghost use Rattle.repl_data.specs.declared.change.Attr.{Attr};
ghost use Rattle.repl_data.specs.declared.change.Mod.{Mod};
ghost use Rattle.repl_data.specs.Ordered.{Rises};
ghost use Rattle.repl_data.specs.Plain.{plain_mod};
ghost use Rattle.repl_data.specs.View.{user, vals_at};
ghost use Rattle.rule_values.specs.Having.{attr_name, val_key};
ghost use Rattle.rule_values.specs.Modify.{after, shown_values};
ghost use Rattle.rule_values.specs.Written.{Values, written};

/// What modifications do to an entry, and that nothing of it is lost in what is written.
pub fn modify_laws()
    // What is written leaves of each attribute the values that the modifications leave, one after the other.
    ensures written { (has : Values) (mods : List Mod) (name : List ℕ) → fold after has (written (fold after has mods) mods) name ≡ fold after has mods name }

    // That is their plain effect on attributes in order of name (RFC 4511, section 4.6),
    ensures plain { (attrs : List Attr) (mods : List Mod) (name : List ℕ) → Rises attr_name attrs → vals_at name (fold plain_mod attrs mods) ≡ fold after (λ n. vals_at n attrs) mods name }

    // and of attributes and values in order, those that are shown are those that there are.
    ensures shown { (attrs : List Attr) (name : List ℕ) → Rises attr_name attrs → AllByRecursion (λ (a : Attr). Rises val_key a.vals) attrs → shown_values (map user attrs) name ≡ vals_at name attrs }
{}
