//! The suffix of a directory, read from a text.

ghost use Rattle.dn_text.specs.Fault.{Gives};
ghost use Rattle.dn_text.specs.Suffix.{suffix_of, suffix_in};

use crate::fault::{DnFault, DnWhy};
use crate::name::{Dn, read_dn};
use crate::print::print_dn;
use repl_data::Suffix;
use std::alloc::Global;

/// The suffix with this name, whose parts stand in order of attribute.
fn suffix_of(alloc: Global, dn: Dn) -> Result<Suffix, DnFault>
    ensures { Gives result (suffix_of dn.rdns) }
{
    if dn.rdns.is_empty() {
        return Err(DnFault::BadDn {
            place: 0,
            why: DnWhy::Empty,
        });
    }
    let name = print_dn(alloc, &dn)?;
    let mut rdns = dn.rdns;
    let rdn = rdns.remove(0);
    Ok(Suffix { name, rdn })
}

/// The suffix that the text names: its name as it is printed, and its first relative name with the parts
/// in order of attribute. The empty name is refused as `Empty` at 0.
#[tactic(auto, unfolding(crate::specs::Suffix::suffix_in))]
pub fn read_suffix(alloc: Global, text: &[u8]) -> Result<Suffix, DnFault>
    ensures exact { Gives result (suffix_in text.now) }
{
    let dn = read_dn(alloc, text)?;
    suffix_of(alloc, dn)
}
