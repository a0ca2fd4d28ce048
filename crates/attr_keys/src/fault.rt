//! Why a name or a value has no key.

ghost use Rattle.std.specs.Prelude.{◌≡◌};
ghost use Rattle.attr_keys.specs.declared.fault.KeyFault.TheVariants as fault;

use repl_data::NoMemory;

/// Why there is no key.
#[derive(Clone, Copy, Debug, Drop, Eq, PartialEq)]
pub enum KeyFault {
    /// No memory was left.
    NoMemory,
    /// The bytes are no attribute name. `place` is the first byte that no name has there, or the
    /// length of a name that ends too early.
    BadName { place: usize },
    /// The attribute does not accept the value. `place` is the first byte with which it can no
    /// longer be continued to one that is accepted, or the length of one that can.
    BadValue { place: usize },
}

impl From<NoMemory> for KeyFault {
    ghost from_gives = { λ _ e. e ≡ fault.NoMemory };

    fn from(_error: NoMemory) -> KeyFault {
        KeyFault::NoMemory
    }
}
