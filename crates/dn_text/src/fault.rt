//! Why a text is no name, and why a request that names an entry is refused.

ghost use Rattle.std.specs.Prelude.{◌≡◌};
ghost use Rattle.dn_text.specs.declared.fault.DnFault.TheVariants as fault;
ghost use Rattle.dn_text.specs.declared.fault.JudgeFault.TheVariants as judge;

use ldap_types::LdapResult;
use repl_data::NoMemory;

/// What is wrong at a place of a name's text.
#[derive(Clone, Copy, Debug, Eq, PartialEq)]
pub enum DnWhy {
    /// A byte that may not stand there: in an attribute name, or in a value without a backslash, or a
    /// backslash that begins no escape.
    Char,
    /// A value begins with `#`, which would be its BER in hexadecimal digits (RFC 4514, section 2.4).
    HexForm,
    /// A relative name or a part of one is empty. The place is that of the separator that ends it, or
    /// the length of the text.
    Empty,
    /// A part has no `=`. The place is that of the separator that ends it, or the length of the text.
    NoEquals,
    /// An attribute stands twice in one relative name. The place is that of its second name.
    Twice,
    /// The attribute does not accept the value. The place is where the value begins.
    Value,
}

/// Why there is no name.
#[derive(Clone, Copy, Debug, Eq, PartialEq)]
pub enum DnFault {
    /// No memory was left.
    NoMemory,
    /// The text is no name: its first fault, and the place of the byte at fault, from 0.
    BadDn { place: usize, why: DnWhy },
}

impl From<NoMemory> for DnFault {
    ghost from_gives = { λ _ e. e ≡ fault.NoMemory };

    fn from(_error: NoMemory) -> DnFault {
        DnFault::NoMemory
    }
}

/// Why a request on an entry is not carried out.
#[derive(Debug, Drop)]
pub enum JudgeFault {
    /// No memory was left.
    NoMemory,
    /// The rules refuse it, with this answer.
    Refused(LdapResult),
}

impl From<NoMemory> for JudgeFault {
    ghost from_gives = { λ _ e. e ≡ judge.NoMemory };

    fn from(_error: NoMemory) -> JudgeFault {
        JudgeFault::NoMemory
    }
}
