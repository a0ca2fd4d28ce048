//! What keys are to one another.

ghost use Rattle.std.specs.Prelude.{◌≡◌, ℕ, List, None, map};
ghost use Rattle.std.specs.List.{AllByRecursion};
ghost use Rattle.std.specs.Char.{to_ascii_lowercase};
ghost use Rattle.attr_keys.specs.declared.kind.Kind.{Kind};
ghost use Rattle.attr_keys.specs.Name.{bad_name, base_of};
ghost use Rattle.attr_keys.specs.Table.{key_of, first_name, is_single};
ghost use Rattle.repl_data.specs.Key.{text_key};
ghost use Rattle.repl_data.specs.Types.{is_among, single_valued};
ghost use Rattle.attr_keys.specs.Value.{bad_value, value_key};
ghost use Rattle.attr_keys.specs.Laws.{AreEqualNames, AreEqualValues};

/// What the keys of names and values are to one another.
///
/// A key is the key of its own text for names, ASCII text, text whose case counts, integers, phone numbers
/// and bytes. For text whose case does not count it need not be: a bold capital A has no other case, so folding
/// leaves it, and normalizing makes it an A, of which the key is a. And a space of no break alone has the empty
/// key, which is no value.
pub fn key_laws()
    ensures name_again { (name : List ℕ) → key_of (key_of name) ≡ key_of name }

    // Whether a key's type is single-valued is what the name says, however it is spelled and whatever its
    // options: the first name of its type stands among the single-valued ones, or does not.
    ensures single { (name : List ℕ) → is_single (key_of name) ≡ is_among single_valued (first_name (map to_ascii_lowercase (base_of name))) }

    // And each of these is a key.
    ensures single_names { AllByRecursion (λ name. key_of name ≡ name) single_valued }

    // The key of an attribute name is an attribute name.
    ensures name_key { (name : List ℕ) → bad_name name ≡ None → bad_name (key_of name) ≡ None }

    ensures integer_again { (value : List ℕ) →
        value_key Kind.Int (value_key Kind.Int value) ≡ value_key Kind.Int value }
    ensures phone_again { (value : List ℕ) →
        value_key Kind.Tel (value_key Kind.Tel value) ≡ value_key Kind.Tel value }
    ensures ascii_again { (value : List ℕ) → bad_value Kind.Ia5 value ≡ None →
        value_key Kind.Ia5 (value_key Kind.Ia5 value) ≡ value_key Kind.Ia5 value }
    ensures bytes_again { (value : List ℕ) →
        value_key Kind.Oct (value_key Kind.Oct value) ≡ value_key Kind.Oct value }

    // What normalizing and the rule of spaces leave of a text whose case counts, they leave again.
    ensures exact_again { (value : List ℕ) → bad_value Kind.Exact value ≡ None →
        value_key Kind.Exact (value_key Kind.Exact value) ≡ value_key Kind.Exact value }

    // A directory string has the key that values derived by a view have.
    ensures text { (value : List ℕ) → value_key Kind.Dir value ≡ text_key value }

    // Equality of names, and of values of one kind, is an equivalence.
    ensures same_name { (a : List ℕ) → AreEqualNames a a }
    ensures names_turn { (a b : List ℕ) → AreEqualNames a b → AreEqualNames b a }
    ensures names_join { (a b c : List ℕ) → AreEqualNames a b → AreEqualNames b c → AreEqualNames a c }
    ensures same_value { (kind : Kind) (a : List ℕ) → AreEqualValues kind a a }
    ensures values_turn { (kind : Kind) (a b : List ℕ) → AreEqualValues kind a b → AreEqualValues kind b a }
    ensures values_join { (kind : Kind) (a b c : List ℕ) → AreEqualValues kind a b
        → AreEqualValues kind b c → AreEqualValues kind a c }
{}
