//! Why attributes and values are refused.

ghost use Rattle.std.specs.Prelude.{◌≡◌};
ghost use Rattle.rule_values.specs.Codes.{code_of};
ghost use Rattle.rule_values.specs.declared.fault.ValueFault.TheVariants as fault;

use ldap_types::Code;
use repl_data::NoMemory;

/// Why the attributes and values of a write are refused.
#[derive(Clone, Copy, Debug, Drop, Eq, PartialEq)]
pub enum Refusal {
    /// A modification is none of add, delete and replace.
    UnknownKind,
    /// Bytes are no attribute name.
    BadName,
    /// An attribute does not accept a value.
    BadValue,
    /// A derived attribute or class is named.
    Derived,
    /// An attribute of an add, or an add modification, has no value.
    NoValue,
    /// A value stands twice in an attribute or in one modification.
    ListedTwice,
    /// A modification adds a value that the entry has.
    HeldAlready,
    /// A modification deletes a value or an attribute that the entry has not.
    NotHeld,
    /// A modify has no modification.
    NoModification,
    /// A modify has more than 1,000 modifications.
    TooManyModifications,
    /// An add has more than 500 attributes.
    TooManyAttributes,
    /// A value of the entry's own name would go.
    NameValueGone,
    /// A single-valued type would have more than one value.
    SecondValue,
    /// The entry would have no class.
    NoClass,
}

impl Refusal {
    /// The code that tells it (RFC 4511, appendix A).
    pub fn code(self) -> Code
        ensures { result.number ≡ code_of self }
    {
        match self {
            Refusal::UnknownKind => Code::PROTOCOL_ERROR,
            Refusal::NoValue => Code::PROTOCOL_ERROR,
            Refusal::NoModification => Code::PROTOCOL_ERROR,
            Refusal::TooManyAttributes => Code::ADMIN_LIMIT_EXCEEDED,
            Refusal::TooManyModifications => Code::ADMIN_LIMIT_EXCEEDED,
            Refusal::NotHeld => Code::NO_SUCH_ATTRIBUTE,
            Refusal::BadName => Code::UNDEFINED_ATTRIBUTE_TYPE,
            Refusal::Derived => Code::CONSTRAINT_VIOLATION,
            Refusal::SecondValue => Code::CONSTRAINT_VIOLATION,
            Refusal::ListedTwice => Code::ATTRIBUTE_OR_VALUE_EXISTS,
            Refusal::HeldAlready => Code::ATTRIBUTE_OR_VALUE_EXISTS,
            Refusal::BadValue => Code::INVALID_ATTRIBUTE_SYNTAX,
            Refusal::NoClass => Code::OBJECT_CLASS_VIOLATION,
            Refusal::NameValueGone => Code::NOT_ALLOWED_ON_RDN,
        }
    }
}

/// Why a write has no attributes or modifications to be written.
#[derive(Clone, Copy, Debug, Drop, Eq, PartialEq)]
pub enum ValueFault {
    /// No memory was left.
    NoMemory,
    /// The rules refuse it.
    Refused(Refusal),
}

impl From<NoMemory> for ValueFault {
    ghost from_gives = { λ _ e. e ≡ fault.NoMemory };

    fn from(_error: NoMemory) -> ValueFault {
        ValueFault::NoMemory
    }
}
