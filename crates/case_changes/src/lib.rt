//! Change sequence numbers, ids and changes as words of cases, both ways.
//!
//! A CSN is `TIME.SEQ.RID`, in decimal, or `TIME.SEQ.RID.SUB`; an id is the CSN of its entry's add,
//! or `suffix`. A change is four to six words:
//!
//!     add CSN ID PARENT RDN ATTRIBUTES     add 101.0.1 101.0.1 suffix ou:a ou:a,b;sn:c
//!     mod CSN ID MODIFICATIONS             mod 101.0.1 100.0.1 add:sn:b,c;delete:cn;replace:l:d
//!     ren CSN ID RDN DROPPED               ren 101.0.1 100.0.1 cn:a+ou:b ou:c
//!     del CSN ID                           del 101.0.1 100.0.1
//!
//! A value is its key, and `KEY/SPELLED` where it is spelled otherwise. Text with other characters
//! than letters, digits and hyphens is written as bytes are, beginning with a quote. A
//! modification that comes so many times has the count and `*` before it. An empty list is `-`.
#![tactic(auto)]

mod change;
mod csn;
mod part;
mod told;

pub use change::{next_change, next_rdn};
pub use csn::{csn_list, next_csn, next_uid, tell_csn, tell_uid};
pub use part::pieces;
pub use told::{tell_change, tell_rdn};
