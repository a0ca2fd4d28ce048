//! Names, printed (RFC 4514).

ghost use Rattle.std.specs.Prelude.{◌≡◌, ◌∷◌, [], ◌++◌, ◌==◌, ◌||◌, ◌&&◌, ◌+◌, ◌<◌, nat_lt, false, List, length, map, flat_map, codes, IfOk, OnOk, if◌then◌else◌};
ghost use Rattle.std.specs.List.{list_any};
ghost use Rattle.hex.specs.Hex.{encode_lower};
ghost use Rattle.repl_data.specs.declared.change.Ava.{Ava};
ghost use Rattle.repl_data.specs.declared.change.Rdn.{Rdn};
ghost use Rattle.repl_data.specs.Text.{escape_always, escape_as_hex, escaped, escaped_rest, escaped_value, ava_text, joined, rdn_text};

use repl_data::{Ava, Bytes, Items, NoMemory, Rdn, or};
use std::alloc::Global;

fn is_special(b: u8) -> bool
    ensures { result ≡ escape_always b }
{
    let quote = b == b'"';
    let plus = b == b'+';
    let comma = b == b',';
    let semicolon = b == b';';
    let less = b == b'<';
    let greater = b == b'>';
    let backslash = b == b'\\';
    let signs = or(less, or(greater, backslash));
    or(quote, or(plus, or(comma, or(semicolon, signs))))
}

fn is_control(b: u8) -> bool
    ensures { result ≡ escape_as_hex b }
{
    b < 32 || b == 127
}

fn hex_digits(b: u8) -> [u8; 2]
    ensures { result ≡ encode_lower (b ∷ []) }
{
    let mut digits = [0; 2];
    hex::encode_to_slice([b], &mut digits).unwrap();
    digits
}

/// Appends a byte of a value; `edge`: it is escaped for its place (RFC 4514, section 2.4).
fn put_escaped(edge: bool, b: u8, out: &mut Bytes) -> Result<(), NoMemory>
    ensures { OnOk result (out.new ≡ out.old ++ escaped edge b) }
{
    if is_control(b) {
        out.push(b'\\')?;
        out.extend_from_slice(hex_digits(b).as_slice())?;
        Ok(())
    } else if or(is_special(b), edge) {
        out.push(b'\\')?;
        out.push(b)?;
        Ok(())
    } else {
        out.push(b)?;
        Ok(())
    }
}

fn is_edge(b: u8) -> bool
    ensures { result ≡ (b == 32 || b == 35) }
{
    b == b' ' || b == b'#'
}

fn is_last_space(at: usize, len: usize, b: u8) -> bool
    requires { at < len }
    ensures { result ≡ (at + 1 == len && b == 32) }
{
    at + 1 == len && b == b' '
}

/// The bytes after the first: a space at the end is escaped.
#[tactic(auto, using(crate::proofs::Texts::escaped_rest_more))]
fn put_rest(rest: &[u8], out: &mut Bytes) -> Result<(), NoMemory>
    ensures { OnOk result (out.new ≡ out.old ++ escaped_rest rest.now) }
{
    for (i, b) in rest.iter().enumerate() {
        let edge = is_last_space(i, rest.len(), *b);
        put_escaped(edge, *b, out)?;
    }
    Ok(())
}

fn put_value(value: &[u8], out: &mut Bytes) -> Result<(), NoMemory>
    ensures { OnOk result (out.new ≡ out.old ++ escaped_value value.now) }
{
    match value.split_first() {
        None => Ok(()),
        Some((first, rest)) => {
            put_escaped(is_edge(*first), *first, out)?;
            put_rest(rest, out)?;
            Ok(())
        }
    }
}

fn put_ava(a: &Ava, out: &mut Bytes) -> Result<(), NoMemory>
    ensures { OnOk result (out.new ≡ out.old ++ ava_text a.now) }
{
    out.extend_from_slice(a.attr.name.as_slice())?;
    out.push(b'=')?;
    put_value(a.val.spelled.as_slice(), out)?;
    Ok(())
}

#[tactic(auto, using(repl_data::proofs::Loops::flat_map_more))]
fn put_more_avas(avas: &[Ava], out: &mut Bytes) -> Result<(), NoMemory>
    ensures { OnOk result (out.new ≡ out.old ++ flat_map (λ (a : Ava). codes "+" ++ ava_text a) avas.now) }
{
    for a in avas {
        out.push(b'+')?;
        put_ava(a, out)?;
    }
    Ok(())
}

/// Appends a relative name, printed (RFC 4514, section 2.2).
fn put_rdn(rdn: &Rdn, out: &mut Bytes) -> Result<(), NoMemory>
    ensures { OnOk result (out.new ≡ out.old ++ rdn_text rdn.now) }
{
    match rdn.avas.as_slice().split_first() {
        None => Ok(()),
        Some((first, more)) => {
            put_ava(first, out)?;
            put_more_avas(more, out)?;
            Ok(())
        }
    }
}

/// The printed name of an entry, by its relative names from the entry up and the printed name of the
/// suffix (RFC 4514). Takes time and memory in proportion to its length.
#[tactic(auto, using(repl_data::proofs::Loops::flat_map_more))]
pub fn dn_text(alloc: Global, suffix: &[u8], rdns: &[Rdn]) -> Result<Bytes, NoMemory>
    ensures { IfOk result (λ dn. dn ≡ joined (codes ",") (map rdn_text rdns.now ++ suffix.now ∷ [])) }
{
    let mut out = Items::new(alloc);
    for rdn in rdns {
        put_rdn(rdn, &mut out)?;
        out.push(b',')?;
    }
    out.extend_from_slice(suffix)?;
    Ok(out)
}
