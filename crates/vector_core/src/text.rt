//! Vectors as texts.

ghost use Rattle.std.specs.Prelude.{◌≡◌, ◌≢◌, ◌++◌, ◌∷◌, [], List, map, Ok, Some, None, OnOk, IfOk, IfSome};
ghost use Rattle.repl_data.specs.declared.csn.Csn.{Csn};
ghost use Rattle.repl_data.specs.Text.{IsInRange, csn_text};
ghost use Rattle.std.specs.Fmt.{decimal};
ghost use Rattle.vector_core.specs.Vector.{IsVector, HasEntries};
ghost use Rattle.vector_core.specs.Text.{IsEntry, IsVectorText, entry_text, replica_text};

use crate::vector::Vector;
use repl_data::{Bytes, Csn, Items, NoMemory, VectorText};
use std::alloc::Global;

impl Vector {
    /// The text `{replica <rid> ldap://node<rid>} <csn>` of each entry, in order of replica id.
    pub fn text(&self, alloc: Global) -> Result<VectorText, NoMemory>
        ensures { IfOk result (λ texts. texts ≡ map entry_text self.now) }
    {
        let mut texts = Items::new(alloc);
        let entries = self.entries();
        for csn in entries {
            texts.push(entry_bytes(alloc, *csn)?)?;
        }
        Ok(texts)
    }

    /// The vector of these texts; `None` where one of them is no text of an entry with a replica id
    /// from 1 to 65534, or where two are of one replica.
    pub fn read(alloc: Global, text: &VectorText) -> Result<Option<Vector>, NoMemory>
        ensures found { IfOk result (λ read. IfSome read (λ vector. IsVector vector × ((csns : List Csn) × IsVectorText text.now csns × HasEntries vector csns))) }
        ensures none { result ≡ Ok None → (csns : List Csn) → IsVectorText text.now csns → ⊥ }
    {
        let mut vector = Vector::new(alloc)?;
        let items = text.as_slice();
        for item in items {
            let Some(csn) = read_entry(alloc, item.as_slice())? else {
                return Ok(None);
            };
            if vector.get(csn.rid).compare(Csn::ZERO).is_gt() {
                return Ok(None);
            }
            vector.raise(alloc, csn)?;
        }
        Ok(Some(vector))
    }
}

fn number_text(alloc: Global, out: &mut Bytes, number: u16) -> Result<(), NoMemory>
    ensures { OnOk result (out.new ≡ out.old ++ decimal number) }
{
    let text = format!(in alloc; "{number}")?;
    out.extend_from_slice(text.as_bytes())
}

#[tactic(auto, unfolding(crate::specs::Text::replica_text))]
fn put_replica(alloc: Global, out: &mut Bytes, rid: u16) -> Result<(), NoMemory>
    ensures { OnOk result (out.new ≡ out.old ++ replica_text rid) }
{
    out.extend_from_slice(b"{replica ")?;
    number_text(alloc, out, rid)?;
    out.extend_from_slice(b" ldap://node")?;
    number_text(alloc, out, rid)?;
    out.extend_from_slice(b"} ")
}

fn entry_bytes(alloc: Global, csn: Csn) -> Result<Bytes, NoMemory>
    ensures { IfOk result (λ text. text ≡ entry_text csn) }
{
    let mut text = Items::new(alloc);
    put_replica(alloc, &mut text, csn.rid)?;
    text.extend_from_slice(csn.text().as_slice())?;
    Ok(text)
}

/// The CSN of the entry that this is the text of.
fn read_entry(alloc: Global, text: &[u8]) -> Result<Option<Csn>, NoMemory>
    ensures found { IfOk result (λ read. IfSome read (λ csn. IsEntry csn × (text.now ≡ entry_text csn))) }
    ensures none { result ≡ Ok None → (csn : Csn) → IsEntry csn → text.now ≡ entry_text csn → ⊥ }
{
    let Some(csn) = last_csn(text) else {
        return Ok(None);
    };
    if csn.rid == 0 || csn.rid == u16::MAX {
        return Ok(None);
    }
    if entry_bytes(alloc, csn)?.as_slice() == text {
        Ok(Some(csn))
    } else {
        Ok(None)
    }
}

/// The CSN that the last twenty bytes spell.
fn last_csn(text: &[u8]) -> Option<Csn>
    ensures range { IfSome result IsInRange }
    ensures last { (csn : Csn) → IsInRange csn → text.now ≡ entry_text csn → result ≡ Some csn }
{
    if text.len() < 20 {
        return None;
    }
    Csn::read(&text[text.len() - 20..])
}
