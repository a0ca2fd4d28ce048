//! What reading and printing are to one another.

ghost use Rattle.std.specs.Prelude.{◌≡◌, ℕ, List, Ok};
ghost use Rattle.dn_text.specs.declared.name.Dn.{Dn};
ghost use Rattle.dn_text.specs.Below.{keys_of, StandsAbove};
ghost use Rattle.dn_text.specs.Laws.{IsReadable};
ghost use Rattle.dn_text.specs.Print.{dn_text};
ghost use Rattle.dn_text.specs.Reading.{dn_in};
ghost use Rattle.dn_text.specs.Spelling.{SpellsName};

/// What printing and reading names are to one another.
pub fn dn_laws()
    // A name that can be told from its text: what is printed spells it, and is read as it.
    ensures printed { (dn : Dn) → IsReadable dn → SpellsName (dn_text dn) dn }
    ensures back { (dn : Dn) → IsReadable dn → dn_in (dn_text dn) ≡ Ok dn }

    // A name that was read is such a name: printed and read again it is the same.
    ensures read { (text : List ℕ) (dn : Dn) → dn_in text ≡ Ok dn → IsReadable dn }
    ensures again { (text : List ℕ) (dn : Dn) → dn_in text ≡ Ok dn → dn_in (dn_text dn) ≡ Ok dn }

    // Names of equal keys are below the same suffixes.
    ensures same { (a b suffix : Dn) (count : ℕ) → keys_of a.rdns ≡ keys_of b.rdns
        → StandsAbove a suffix count → StandsAbove b suffix count }
{}
