//! The key of what tells a conflict.

ghost use Rattle.std.specs.Prelude.{◌≡◌, true, IfOk, codes};
ghost use Rattle.repl_data.specs.Key.{bytes_key};
ghost use Rattle.attr_keys.specs.Value.{has_text};

use attr_keys::{KeyFault, value_key};
use repl_data::{AttrKey, Bytes, NoMemory};
use std::alloc::Global;

/// The attribute that tells a conflict. Its values are directory strings.
fn conflict_attr(alloc: Global) -> Result<AttrKey, NoMemory>
    ensures { IfOk result (λ attr. attr ≡ record { name = codes "nsds5replconflict" }) }
{
    Ok(AttrKey {
        name: Bytes::from_slice(alloc, b"nsds5replconflict".as_slice())?,
    })
}

/// The key of bytes that tell a conflict. Those that are no UTF-8 are their own key.
pub(crate) fn conflict_key(alloc: Global, bytes: &[u8]) -> Result<Bytes, NoMemory>
    requires { has_text bytes.now ≡ true }
    ensures { IfOk result (λ key. key ≡ bytes_key bytes.now) }
{
    let attr = conflict_attr(alloc)?;
    match value_key(alloc, &attr, bytes) {
        Ok(key) => Ok(key),
        Err(KeyFault::BadValue { .. }) => Bytes::from_slice(alloc, bytes),
        Err(_) => Err(NoMemory),
    }
}
