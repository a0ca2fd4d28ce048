//! `Dn` and `read_dn`: a whole name.

ghost use Rattle.std.specs.Prelude.{◌≡◌, IfOk, IsOkUnless};
ghost use Rattle.dn_text.specs.Fault.{Gives};
ghost use Rattle.dn_text.specs.Split.{pieces};
ghost use Rattle.dn_text.specs.Reading.{rdns_in, dn_in};
ghost use Rattle.dn_text.specs.declared.name.Dn.{Dn};
ghost use Rattle.dn_text.specs.Spelling.{SpellsName};

use crate::fault::DnFault;
use crate::rdn::rdn;
use crate::split::cut;
use repl_data::{Items, Rdn};
use std::alloc::Global;

/// Relative names, the entry's own first.
pub type RdnList = Items<Rdn>;

/// A distinguished name: its relative names, of which the first is the entry's own (RFC 4514, section
/// 2.1).
#[derive(Clone, Debug, Drop)]
pub struct Dn {
    pub rdns: RdnList,
}

fn rdns(alloc: Global, text: &[u8]) -> Result<RdnList, DnFault>
    ensures { Gives result (rdns_in (pieces 44 0 text.now)) }
{
    let mut rdns = RdnList::new(alloc);
    let mut at = 0;
    let mut rest = text;
    while let Some((piece, after)) = cut(b',', rest) {
        let one = rdn(alloc, at, piece)?;
        rdns.push(one)?;
        at += piece.len() + 1;
        rest = after;
    }
    let last = rdn(alloc, at, rest)?;
    rdns.push(last)?;
    Ok(rdns)
}

/// The name whose text this is (RFC 4514, section 3). The empty text is the empty name.
///
/// Spaces around separators are skipped unless they are escaped. The parts of a relative name come to
/// stand in order of attribute. In time linear in the text, but for the parts of one relative name, each
/// of which is compared with those before it.
pub fn read_dn(alloc: Global, text: &[u8]) -> Result<Dn, DnFault>
    ensures exact { Gives result (dn_in text.now) }

    // What is read is spelled so, and whatever name the text spells is read, but for want of memory.
    ensures found { IfOk result (SpellsName text.now) }
    ensures only { (dn : Dn) → SpellsName text.now dn
        → IsOkUnless result DnFault.NoMemory × IfOk result (λ read. read ≡ dn) }
{
    find_dn(alloc, text)
}

#[tactic(auto, unfolding(crate::specs::Reading::dn_in))]
fn find_dn(alloc: Global, text: &[u8]) -> Result<Dn, DnFault>
    ensures { Gives result (dn_in text.now) }
{
    if text.is_empty() {
        return Ok(Dn {
            rdns: RdnList::new(alloc),
        });
    }
    let rdns = rdns(alloc, text)?;
    Ok(Dn { rdns })
}
