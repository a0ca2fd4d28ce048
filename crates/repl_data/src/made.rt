//! Values and keys of attributes, made of their bytes.

ghost use Rattle.std.specs.Prelude.{◌≡◌, IfOk};
ghost use Rattle.repl_data.specs.Stamps.{text_val};
ghost use Rattle.repl_data.specs.View.{key_named};

use crate::change::{AttrKey, Val};
use crate::items::{Bytes, NoMemory};
use std::alloc::Global;

/// A value whose key is its text.
pub fn text_val(alloc: Global, text: &[u8]) -> Result<Val, NoMemory>
    ensures { IfOk result (λ v. v ≡ text_val text.now) }
{
    Ok(Val {
        key: Bytes::from_slice(alloc, text)?,
        spelled: Bytes::from_slice(alloc, text)?,
    })
}

/// The key of an attribute that is this name.
pub fn attr_named(alloc: Global, name: &[u8]) -> Result<AttrKey, NoMemory>
    ensures { IfOk result (λ t. t ≡ key_named name.now) }
{
    Ok(AttrKey {
        name: Bytes::from_slice(alloc, name)?,
    })
}
