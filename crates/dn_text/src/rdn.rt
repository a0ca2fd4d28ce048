//! A relative name, its parts put in order.

ghost use Rattle.std.specs.Prelude.{◌≡◌, ◌+◌, ◌≤◌, ◌<◌, ◌^◌, [], length, OnOk};
ghost use Rattle.dn_text.specs.Fault.{Gives};
ghost use Rattle.dn_text.specs.Split.{pieces};
ghost use Rattle.dn_text.specs.Reading.{comes_before, place_among, put_part, parts_in, rdn_in};

use crate::fault::DnFault;
use crate::part::part;
use crate::split::cut;
use repl_data::{Ava, AvaList, NoMemory, Rdn};
use std::alloc::Global;

/// The attribute of `a` is below that of `b`.
pub(crate) fn comes_before(a: &Ava, b: &Ava) -> bool
    ensures { result ≡ comes_before a.now b.now }
{
    a.attr.name.as_slice().cmp(b.attr.name.as_slice()).is_lt()
}

/// Where the part stands among parts in order of attribute.
#[tactic(auto, using(crate::proofs::Parts::place_here, crate::proofs::Parts::place_next, crate::proofs::Parts::place_end))]
fn place_among(ava: &Ava, avas: &[Ava]) -> usize
    ensures value { result ≡ place_among ava.now avas.now }
    ensures within { result ≤ length avas.now }
{
    for (at, other) in avas.iter().enumerate() {
        if comes_before(ava, other) {
            return at;
        }
    }
    avas.len()
}

/// Puts the part in its place among parts in order of attribute.
pub(crate) fn put_part(avas: &mut AvaList, ava: Ava) -> Result<(), NoMemory>
    ensures { OnOk result (avas.new ≡ put_part ava avas.old) }
{
    let at = place_among(&ava, avas.as_slice());
    avas.insert(at, ava)
}

/// The parts of a relative name, whose text begins at the place `start`, in order of attribute.
fn parts(alloc: Global, start: usize, text: &[u8]) -> Result<AvaList, DnFault>
    requires { start + length text.now < 2 ^ 64 }
    ensures { Gives result (parts_in [] (pieces 43 start text.now)) }
{
    let mut avas = AvaList::new(alloc);
    let mut at = start;
    let mut rest = text;
    while let Some((piece, after)) = cut(b'+', rest) {
        let ava = part(alloc, avas.as_slice(), at, piece)?;
        put_part(&mut avas, ava)?;
        at += piece.len() + 1;
        rest = after;
    }
    let last = part(alloc, avas.as_slice(), at, rest)?;
    put_part(&mut avas, last)?;
    Ok(avas)
}

/// The relative name whose text this is, which begins at the place `start`.
#[tactic(auto, unfolding(crate::specs::Reading::rdn_in))]
pub(crate) fn rdn(alloc: Global, start: usize, text: &[u8]) -> Result<Rdn, DnFault>
    requires { start + length text.now < 2 ^ 64 }
    ensures { Gives result (rdn_in (record { start = start; text = text.now })) }
{
    let avas = parts(alloc, start, text)?;
    Ok(Rdn { avas })
}
