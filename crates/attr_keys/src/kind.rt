//! The kinds of values.

/// How the values of an attribute are read and compared.
#[derive(Clone, Copy, Debug, Drop, Eq, PartialEq)]
pub enum Kind {
    /// Unicode text that compares without regard to case (RFC 4517, section 4.2.11).
    Dir,
    /// Unicode text that compares with regard to case (RFC 4517, section 4.2.4).
    Exact,
    /// ASCII text that compares without regard to case (RFC 4517, section 4.2.7).
    Ia5,
    /// Integers of 64 bits with sign, in decimal digits (RFC 4517, section 4.2.19).
    Int,
    /// Telephone numbers, which compare without spaces and hyphens (RFC 4517, section 4.2.29).
    Tel,
    /// Bytes, which compare as they are (RFC 4517, section 4.2.27).
    Oct,
}
