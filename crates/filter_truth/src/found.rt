//! The attribute of a name among those that stand in rising order of name.

ghost use Rattle.std.specs.Prelude.{◌≡◌, find};
ghost use Rattle.std.specs.Option.{option_copied};
ghost use Rattle.repl_data.specs.declared.change.Shown.{Shown};
ghost use Rattle.repl_data.specs.Order.{bytes_eq};
ghost use Rattle.repl_data.specs.Ordered.{Rises};
ghost use Rattle.filter_truth.specs.Truth.{name_of};

use repl_data::{Shown, found_by_key};

/// The attribute of this name, in time logarithmic in their number.
pub(crate) fn found<'a>(attrs: &'a [Shown], name: &[u8]) -> Option<&'a Shown>
    requires { Rises name_of attrs.now }
    ensures { option_copied result ≡ find (λ (s : Shown). bytes_eq name.now s.attr.name) attrs.now }
{
    found_by_key(attrs, name)
}
