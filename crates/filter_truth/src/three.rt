//! Three values.

ghost use Rattle.std.specs.Prelude.{◌≡◌};
ghost use Rattle.filter_truth.specs.Three.{of_bool, negated, both, either};

/// What a filter says of an entry (RFC 4511, section 4.5.1.7).
#[derive(Clone, Copy, Debug, Drop, Eq, PartialEq)]
pub enum Truth {
    /// The entry is one that is looked for.
    Yes,
    No,
    /// What the filter asserts can't be read, or is of no kind that is known.
    Undefined,
}

pub(crate) fn of_bool(is: bool) -> Truth
    ensures { result ≡ of_bool is }
{
    if is { Truth::Yes } else { Truth::No }
}

pub(crate) fn negated(truth: Truth) -> Truth
    ensures { result ≡ negated truth }
{
    match truth {
        Truth::Yes => Truth::No,
        Truth::No => Truth::Yes,
        Truth::Undefined => Truth::Undefined,
    }
}

/// Of two that are to hold together.
pub(crate) fn both(a: Truth, b: Truth) -> Truth
    ensures { result ≡ both a b }
{
    match a {
        Truth::Yes => b,
        Truth::No => Truth::No,
        Truth::Undefined => match b {
            Truth::No => Truth::No,
            Truth::Yes | Truth::Undefined => Truth::Undefined,
        },
    }
}

/// Of two of which one is to hold.
pub(crate) fn either(a: Truth, b: Truth) -> Truth
    ensures { result ≡ either a b }
{
    match a {
        Truth::Yes => Truth::Yes,
        Truth::No => b,
        Truth::Undefined => match b {
            Truth::Yes => Truth::Yes,
            Truth::No | Truth::Undefined => Truth::Undefined,
        },
    }
}
