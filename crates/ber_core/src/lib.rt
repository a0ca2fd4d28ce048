//! Elements of BER with definite lengths, integers and Booleans, read and written (X.690, sections
//! 8.1 to 8.3; RFC 4511, section 5.1); a place inside an element, with which messages are read.
#![tactic(auto)]

mod cursor;
mod fault;
mod inside;
mod number;
mod read;
mod write;

pub use cursor::Cursor;
pub use fault::{BerFault, BerWhy, NotLdapWhy, ReadFault};
pub use inside::{ended, optional_text, text};
pub use number::{read_bool, read_int};
pub use read::{Header, Tlv, read_header, read_tlv};
pub use repl_data::{Bytes, NoMemory};
pub use write::{ber_laws, write_int, write_tlv};
