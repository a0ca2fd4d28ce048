//! Printing a name.

ghost use Rattle.std.specs.Prelude.{◌≡◌, ◌+◌, ◌++◌, ◌∷◌, [], ◌==◌, ◌&&◌, length, map, codes, IfOk, OnOk};
ghost use Rattle.hex.specs.Hex.{encode_lower};
ghost use Rattle.repl_data.specs.Text.{escape_always, escape_as_hex, escaped, escaped_rest, escaped_value, ava_text, joined, rdn_text};
ghost use Rattle.dn_text.specs.Print.{is_rising, put_all, in_order, each_after, rdns_text, dn_text};

use crate::name::Dn;
use crate::rdn::{comes_before, put_part};
use repl_data::{Ava, AvaList, Bytes, NoMemory, Rdn};
use std::alloc::Global;

fn escape_always(b: u8) -> bool
    ensures { result ≡ escape_always b }
{
    matches!(b, b'"' | b'+' | b',' | b';' | b'<' | b'>' | b'\\')
}

fn escape_as_hex(b: u8) -> bool
    ensures { result ≡ escape_as_hex b }
{
    b < 0x20 || b == 0x7f
}

/// A backslash and the byte's two hexadecimal digits.
fn hex_pair(b: u8) -> [u8; 3]
    ensures { result ≡ 92 ∷ encode_lower (b ∷ []) }
{
    let mut digits = [0; 2];
    hex::encode_to_slice([b], &mut digits).unwrap();
    let [high, low] = digits;
    [b'\\', high, low]
}

/// Puts a byte of a value. `edge`: it is escaped where it stands.
fn put_byte(out: &mut Bytes, edge: bool, b: u8) -> Result<(), NoMemory>
    ensures { OnOk result (out.new ≡ out.old ++ escaped edge b) }
{
    if escape_as_hex(b) {
        return out.extend_from_slice(&hex_pair(b));
    }
    if escape_always(b) || edge {
        return out.extend_from_slice(&[b'\\', b]);
    }
    out.push(b)
}

/// Puts the bytes of a value after its first.
#[tactic(auto, using(crate::proofs::Prints::rest_step, crate::proofs::Prints::rest_end))]
fn put_rest(out: &mut Bytes, rest: &[u8]) -> Result<(), NoMemory>
    ensures { OnOk result (out.new ≡ out.old ++ escaped_rest rest.now) }
{
    for (at, b) in rest.iter().enumerate() {
        let last = at + 1 == rest.len();
        put_byte(out, last && *b == b' ', *b)?;
    }
    Ok(())
}

fn put_value(out: &mut Bytes, value: &[u8]) -> Result<(), NoMemory>
    ensures { OnOk result (out.new ≡ out.old ++ escaped_value value.now) }
{
    match value {
        [] => Ok(()),
        [first, rest @ ..] => {
            put_byte(out, *first == b' ' || *first == b'#', *first)?;
            put_rest(out, rest)
        }
    }
}

fn put_ava(out: &mut Bytes, ava: &Ava) -> Result<(), NoMemory>
    ensures { OnOk result (out.new ≡ out.old ++ ava_text ava.now) }
{
    out.extend_from_slice(ava.attr.name.as_slice())?;
    out.push(b'=')?;
    put_value(out, ava.val.spelled.as_slice())
}

/// Puts the parts, each after a plus sign.
fn put_more_avas(out: &mut Bytes, avas: &[Ava]) -> Result<(), NoMemory>
    ensures { OnOk result (out.new ≡ out.old ++ each_after (codes "+") (map ava_text avas.now)) }
{
    for ava in avas {
        out.push(b'+')?;
        put_ava(out, ava)?;
    }
    Ok(())
}

/// Puts the parts with a plus sign between.
fn put_avas(out: &mut Bytes, avas: &[Ava]) -> Result<(), NoMemory>
    ensures { OnOk result (out.new ≡ out.old ++ joined (codes "+") (map ava_text avas.now)) }
{
    match avas {
        [] => Ok(()),
        [first, more @ ..] => {
            put_ava(out, first)?;
            put_more_avas(out, more)
        }
    }
}

fn copy(ava: &Ava) -> Result<Ava, NoMemory>
    ensures { IfOk result (λ copy. copy ≡ ava.now) }
{
    let copy = ava.clone()?;
    Ok(copy)
}

/// The parts stand in strictly rising order of attribute.
fn is_rising(avas: &[Ava]) -> bool
    ensures { result ≡ is_rising avas.now }
{
    for (at, ava) in avas.iter().enumerate() {
        if at + 1 < avas.len() && !comes_before(ava, &avas[at + 1]) {
            return false;
        }
    }
    true
}

/// The parts in order of attribute.
#[tactic(auto, using(crate::proofs::Prints::all_step, crate::proofs::Prints::all_end))]
fn in_order(alloc: Global, avas: &[Ava]) -> Result<AvaList, NoMemory>
    ensures { IfOk result (λ sorted. sorted ≡ put_all [] avas.now) }
{
    let mut sorted = AvaList::new(alloc);
    for ava in avas {
        let copy = copy(ava)?;
        put_part(&mut sorted, copy)?;
    }
    Ok(sorted)
}

fn put_rdn(alloc: Global, out: &mut Bytes, rdn: &Rdn) -> Result<(), NoMemory>
    ensures { OnOk result (out.new ≡ out.old ++ rdn_text (in_order rdn.now)) }
{
    let avas = rdn.avas.as_slice();
    if is_rising(avas) {
        return put_avas(out, avas);
    }
    let avas = in_order(alloc, avas)?;
    put_avas(out, avas.as_slice())
}

/// Puts the relative names, each after a comma.
fn put_more_rdns(alloc: Global, out: &mut Bytes, rdns: &[Rdn]) -> Result<(), NoMemory>
    ensures { OnOk result (out.new ≡ out.old ++ each_after (codes ",") (map (λ r. rdn_text (in_order r)) rdns.now)) }
{
    for rdn in rdns {
        out.push(b',')?;
        put_rdn(alloc, out, rdn)?;
    }
    Ok(())
}

fn put_rdns(alloc: Global, out: &mut Bytes, rdns: &[Rdn]) -> Result<(), NoMemory>
    ensures { OnOk result (out.new ≡ out.old ++ rdns_text rdns.now) }
{
    match rdns {
        [] => Ok(()),
        [first, more @ ..] => {
            put_rdn(alloc, out, first)?;
            put_more_rdns(alloc, out, more)
        }
    }
}

/// The text of a name (RFC 4514, section 2): its relative names with a comma between, the parts of each
/// in order of attribute with a plus sign between, attributes by their keys, and values as they were
/// spelled.
///
/// A backslash stands before `"`, `+`, `,`, `;`, `<`, `>`, `\`, before a space or `#` at the front, and
/// before a space at the end; a byte below 0x20 and 0x7f is a backslash and two hexadecimal digits.
pub fn print_dn(alloc: Global, dn: &Dn) -> Result<Bytes, NoMemory>
    ensures { IfOk result (λ text. text ≡ dn_text dn.now) }
{
    let mut out = Bytes::new(alloc);
    put_rdns(alloc, &mut out, dn.rdns.as_slice())?;
    Ok(out)
}
