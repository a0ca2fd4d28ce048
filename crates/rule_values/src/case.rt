//! A case of the rules.

ghost use Rattle.rule_values.specs.Refusing.{refuse_if, Gives};

use crate::fault::{Refusal, ValueFault};

/// A case of the rules: where it fits, it refuses with this cause.
pub(crate) fn refuse_if(fits: bool, why: Refusal) -> Result<(), ValueFault>
    ensures { Gives result (refuse_if fits why) }
{
    if fits {
        return Err(ValueFault::Refused(why));
    }
    Ok(())
}
