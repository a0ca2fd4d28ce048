//! The name of a request, and its relative names above the suffix.

ghost use Rattle.std.specs.Prelude.{◌≡◌, ◌≤◌, IfOk, IfSome, length, take, Ok, Option, List};
ghost use Rattle.dn_text.specs.Reading.{dn_in};
ghost use Rattle.dn_text.specs.Case.{Gives};
ghost use Rattle.dn_text.specs.Names.{same_keys, count_above, rdns_above, have_same_keys, is_named};
ghost use Rattle.dn_text.specs.Names.{read_object, within};

use crate::fault::{DnFault, JudgeFault};
use crate::name::{Dn, RdnList, read_dn};
use crate::refusing::refused;
use ldap_types::Code;
use repl_data::{Bytes, NoMemory};
use std::alloc::Global;

/// How many relative names stand above the suffix.
pub fn count_above(name: &Dn, suffix: &Dn) -> Option<usize>
    ensures value { result ≡ count_above name.now suffix.now }
    ensures fits { IfSome result (λ count. count ≤ length name.now.rdns) }
{
    name.below(suffix)
}

/// The two names are the same, by the keys of their relative names.
pub fn same_keys(a: &Dn, b: &Dn) -> bool
    ensures { result ≡ same_keys a.now.rdns b.now.rdns }
{
    match a.below(b) {
        Some(count) => count == 0,
        None => false,
    }
}

/// The name that a request names.
pub fn object(alloc: Global, text: &[u8]) -> Result<Dn, JudgeFault>
    ensures { Gives result (read_object (dn_in text.now)) }
{
    match read_dn(alloc, text) {
        Ok(dn) => Ok(dn),
        Err(DnFault::NoMemory) => Err(JudgeFault::NoMemory),
        Err(DnFault::BadDn { .. }) => Err(refused(alloc, Code::INVALID_DN_SYNTAX)),
    }
}

/// The relative names above the first of those of the suffix.
fn cut(alloc: Global, name: Dn, suffix: &Dn) -> Result<RdnList, JudgeFault>
    ensures { Gives result (within (rdns_above (Ok suffix.now) name)) }
{
    match count_above(&name, suffix) {
        Some(count) => {
            let mut rdns = name.rdns.into_vec();
            rdns.truncate(count);
            Ok(RdnList::from_vec(rdns))
        }
        None => Err(refused(alloc, Code::NO_SUCH_OBJECT)),
    }
}

/// The relative names of a name above the suffix, the entry's own first.
pub fn rdns_above(alloc: Global, name: Dn, suffix: &[u8]) -> Result<RdnList, JudgeFault>
    ensures { Gives result (within (rdns_above (dn_in suffix.now) name)) }
{
    match read_dn(alloc, suffix) {
        Ok(suffix) => cut(alloc, name, &suffix),
        Err(DnFault::NoMemory) => Err(JudgeFault::NoMemory),
        Err(DnFault::BadDn { .. }) => Err(refused(alloc, Code::NO_SUCH_OBJECT)),
    }
}
