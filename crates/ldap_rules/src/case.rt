//! Results of cases.

ghost use Rattle.std.specs.Prelude.{◌≡◌};
ghost use Rattle.ldap_rules.specs.Case.{refuse_if, Gives};

use dn_text::{JudgeFault, refused};
use ldap_types::Code;
use std::alloc::Global;

/// A case of the rules: where it fits, it refuses with this code.
pub(crate) fn refuse_if(alloc: Global, fits: bool, code: Code) -> Result<(), JudgeFault>
    ensures { Gives result (refuse_if fits code.number) }
{
    if fits {
        return Err(refused(alloc, code));
    }
    Ok(())
}
