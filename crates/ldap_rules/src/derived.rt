//! Attributes and classes that a view derives, in names.

ghost use Rattle.std.specs.Prelude.{◌≡◌};
ghost use Rattle.std.specs.List.{list_any};
ghost use Rattle.repl_data.specs.Types.{is_derived_ava};

use repl_data::{Ava, is_derived_part};

/// Whether one of the parts is an attribute or a class that the view derives.
pub(crate) fn has_derived_part(parts: &[Ava]) -> bool
    ensures { result ≡ list_any is_derived_ava parts.now }
{
    parts.iter().any(|ava| is_derived_part(ava))
}
