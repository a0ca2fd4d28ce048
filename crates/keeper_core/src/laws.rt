//! What a batch leaves under each key.

ghost use Rattle.std.specs.Prelude.{◌≡◌, List, ◌++◌, ◌∷◌, Some, None, ℕ, false};
ghost use Rattle.std.specs.List.{list_any};
ghost use Rattle.keeper_core.specs.declared.row.RowKey.{RowKey};
ghost use Rattle.keeper_core.specs.declared.row.Row.{Row};
ghost use Rattle.keeper_core.specs.declared.row.BatchStep.{BatchStep};
ghost use Rattle.keeper_core.specs.declared.row.BatchStep.TheVariants.{Put, Remove};
ghost use Rattle.keeper_core.specs.Rows.{IsRising, after_batch, bytes_at, is_on};

/// What a batch leaves under each key.
pub fn row_laws()
    // The bytes of a put stand there where no later step is on its key.
    ensures put { (rows : List Row) (before after : List BatchStep) (key : RowKey) (bytes : List ℕ) → list_any (is_on key) after ≡ false → bytes_at key (after_batch rows (before ++ Put key bytes ∷ after)) ≡ Some bytes }

    // A key that is removed has no row where no later step is on it.
    ensures removed { (rows : List Row) (before after : List BatchStep) (key : RowKey) → list_any (is_on key) after ≡ false → bytes_at key (after_batch rows (before ++ Remove key ∷ after)) ≡ None }

    // A key that no step is on keeps what it has.
    ensures others { (rows : List Row) (batch : List BatchStep) (key : RowKey) → list_any (is_on key) batch ≡ false → bytes_at key (after_batch rows batch) ≡ bytes_at key rows }

    // Rows in rising order stay so.
    ensures rising { (rows : List Row) (batch : List BatchStep) → IsRising rows → IsRising (after_batch rows batch) }

    // Rows in rising order are told apart by what stands under the keys.
    ensures same { (one other : List Row) → IsRising one → IsRising other → ((key : RowKey) → bytes_at key one ≡ bytes_at key other) → one ≡ other }
{}
