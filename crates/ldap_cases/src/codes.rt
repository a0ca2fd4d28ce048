//! The numbers of the codes (RFC 4511, appendix A).

use case_lines::{CaseFault, Fields};
use ldap_types::Code;
use std::fmt::Write;

/// The code with the name that the standard gives it.
fn code_of(name: &str) -> Option<Code> {
    let code = match name {
        "success" => Code::SUCCESS,
        "protocolError" => Code::PROTOCOL_ERROR,
        "sizeLimitExceeded" => Code::SIZE_LIMIT_EXCEEDED,
        "compareFalse" => Code::COMPARE_FALSE,
        "compareTrue" => Code::COMPARE_TRUE,
        "authMethodNotSupported" => Code::AUTH_METHOD_NOT_SUPPORTED,
        "referral" => Code::REFERRAL,
        "adminLimitExceeded" => Code::ADMIN_LIMIT_EXCEEDED,
        "unavailableCriticalExtension" => Code::UNAVAILABLE_CRITICAL_EXTENSION,
        "noSuchAttribute" => Code::NO_SUCH_ATTRIBUTE,
        "undefinedAttributeType" => Code::UNDEFINED_ATTRIBUTE_TYPE,
        "constraintViolation" => Code::CONSTRAINT_VIOLATION,
        "attributeOrValueExists" => Code::ATTRIBUTE_OR_VALUE_EXISTS,
        "invalidAttributeSyntax" => Code::INVALID_ATTRIBUTE_SYNTAX,
        "noSuchObject" => Code::NO_SUCH_OBJECT,
        "invalidDNSyntax" => Code::INVALID_DN_SYNTAX,
        "invalidCredentials" => Code::INVALID_CREDENTIALS,
        "insufficientAccessRights" => Code::INSUFFICIENT_ACCESS_RIGHTS,
        "busy" => Code::BUSY,
        "unavailable" => Code::UNAVAILABLE,
        "unwillingToPerform" => Code::UNWILLING_TO_PERFORM,
        "namingViolation" => Code::NAMING_VIOLATION,
        "objectClassViolation" => Code::OBJECT_CLASS_VIOLATION,
        "notAllowedOnNonLeaf" => Code::NOT_ALLOWED_ON_NON_LEAF,
        "notAllowedOnRDN" => Code::NOT_ALLOWED_ON_RDN,
        "entryAlreadyExists" => Code::ENTRY_ALREADY_EXISTS,
        "other" => Code::OTHER,
        _ => return None,
    };
    Some(code)
}

/// The number of the code that the argument names.
pub fn number(fields: &mut Fields<'_>, told: &mut String) -> Result<(), CaseFault> {
    let Some(code) = code_of(fields.word()?) else {
        return Err(CaseFault::Argument);
    };
    let number = code.number;
    write!(told, "{number}")?;
    Ok(())
}
