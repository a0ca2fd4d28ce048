//! A value whose key has its first bytes beside it.

ghost use Rattle.std.specs.Prelude.{◌≡◌, IfOk};
ghost use Rattle.rule_values.specs.Heads.{val_cmp};

use crate::head_key::HeadKey;
use repl_data::{Bytes, NoMemory, Val};
use std::cmp::Ordering;
use std::marker::Model;

/// A value that is to be sorted.
#[derive(Debug, Drop)]
pub(crate) struct Headed {
    key: HeadKey,
    spelled: Bytes,
}

impl Model for Headed {
    ghost use Rattle.repl_data.specs.declared.change.Val.{Val};

    ghost Value = { Val };

    ghost view = { λ h. record { key = h.key; spelled = h.spelled } };
}

impl Headed {
    pub(crate) fn of(val: Val) -> Headed
        ensures { result ≡ val }
    {
        let Val { key, spelled } = val;
        let key = HeadKey::of(key);
        Headed { key, spelled }
    }

    pub(crate) fn into_val(self) -> Val
        ensures { result ≡ self }
    {
        let Headed { key, spelled } = self;
        let key = key.into_key();
        Val { key, spelled }
    }
}

/// The order of two values by their keys.
pub(crate) fn by_key(a: &Headed, b: &Headed) -> Ordering
    ensures { result ≡ val_cmp a.now b.now }
{
    a.key.cmp(&b.key)
}

/// A copy of a value's key, for a look-up.
pub(crate) fn copy_key(val: &Val) -> Result<HeadKey, NoMemory>
    ensures { IfOk result (λ key. key ≡ val.now.key) }
{
    let key = val.key.clone()?;
    Ok(HeadKey::of(key))
}
