//! Texts, and attributes with their values.

use case_lines::{CaseFault, tell_bytes, tell_text};
use ldap_types::{Bytes, BytesList, RawAttr};

/// How long a text is at most that is told in quotes.
const SHORT: usize = 64;

/// Appends a space and the text.
pub fn tell(told: &mut String, text: &Bytes) -> Result<(), CaseFault> {
    told.push_str(" ")?;
    if text.len() > SHORT {
        tell_bytes(told, text.as_slice())
    } else {
        tell_text(told, text.as_slice())
    }
}

/// Appends a space and the text, or a dash where there is none.
pub fn tell_optional(told: &mut String, text: &Option<Bytes>) -> Result<(), CaseFault> {
    match text {
        Some(text) => tell(told, text),
        None => {
            told.push_str(" -")?;
            Ok(())
        }
    }
}

/// Appends the texts, each with a space before it.
pub fn tell_each(told: &mut String, texts: &BytesList) -> Result<(), CaseFault> {
    for text in texts.as_slice() {
        tell(told, text)?;
    }
    Ok(())
}

/// Appends each attribute in parentheses: its name and its values.
pub fn tell_attributes(told: &mut String, attrs: &[RawAttr]) -> Result<(), CaseFault> {
    for attr in attrs {
        told.push_str(" (")?;
        tell(told, &attr.name)?;
        tell_each(told, &attr.vals)?;
        told.push_str(" )")?;
    }
    Ok(())
}
