//! The scope of a search.

ghost use Rattle.std.specs.Prelude.{◌≡◌};
ghost use Rattle.search_core.specs.Scope.{scope_of};

use ldap_types::SearchRequest;

/// Which entries a search looks at (RFC 4511, section 4.5.1.2).
#[derive(Clone, Copy, Debug, Drop, Eq, PartialEq)]
pub(crate) enum Scope {
    /// The base alone.
    Base,
    /// What is directly below the base.
    Children,
    /// The base and all that is below it.
    Subtree,
}

/// The scope of the request, if it is one of the three.
pub(crate) fn scope_of(request: &SearchRequest) -> Option<Scope>
    ensures { result ≡ scope_of request.now.scope }
{
    if request.scope == 0 {
        Some(Scope::Base)
    } else if request.scope == 1 {
        Some(Scope::Children)
    } else if request.scope == 2 {
        Some(Scope::Subtree)
    } else {
        None
    }
}
