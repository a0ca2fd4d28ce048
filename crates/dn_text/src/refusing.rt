//! Refusals.

ghost use Rattle.std.specs.Prelude.{◌≡◌};
ghost use Rattle.dn_text.specs.Case.{result_of, no_such_object};

use crate::fault::JudgeFault;
use ldap_types::{Code, LdapResult};
use repl_data::Bytes;
use std::alloc::Global;

/// A result of this code that says no more. Takes no memory.
pub fn result_of(alloc: Global, code: Code) -> LdapResult
    ensures { result ≡ result_of code.number }
{
    LdapResult {
        code,
        matched: Bytes::new(alloc),
        text: Bytes::new(alloc),
    }
}

/// The refusal with this code. Takes no memory.
pub fn refused(alloc: Global, code: Code) -> JudgeFault
    ensures { result ≡ JudgeFault.Refused (result_of code.number) }
{
    JudgeFault::Refused(result_of(alloc, code))
}

/// The refusal where an entry is not there, with the shown name of the nearest one above it.
pub(crate) fn no_such_object(alloc: Global, matched: Bytes) -> JudgeFault
    ensures { result ≡ JudgeFault.Refused (no_such_object matched) }
{
    JudgeFault::Refused(LdapResult {
        code: Code::NO_SUCH_OBJECT,
        matched,
        text: Bytes::new(alloc),
    })
}
