//! Reading what a filter asserts.

ghost use Rattle.std.specs.Prelude.{◌≡◌, List, [], IfOk, Some, None};
ghost use Rattle.std.specs.Option.{option_map};
ghost use Rattle.repl_data.specs.declared.change.AttrKey.{AttrKey};
ghost use Rattle.attr_keys.specs.Table.{kind_of};
ghost use Rattle.filter_truth.specs.Truth.{attr_of, value_of, piece_of, asserted, compares, maybe_piece, all_pieces, with_pieces, is_integer};
ghost use Rattle.filter_truth.specs.Prepared.{maybe_meant, maybe_passes};

use crate::test::{Assertion, Comparison, Test};
use attr_keys::{AttrKey, KeyFault, Kind, attr_key, kind_of, piece_key, value_key};
use repl_data::{Bytes, BytesList, NoMemory};
use std::alloc::Global;

/// The key of a name, if it can be read.
pub(crate) fn attr_of(alloc: Global, name: &[u8]) -> Result<Option<AttrKey>, NoMemory>
    ensures { IfOk result (λ attr. option_map (λ (a : AttrKey). a.name) attr ≡ attr_of name.now) }
{
    match attr_key(alloc, name) {
        Ok(attr) => Ok(Some(attr)),
        Err(KeyFault::BadName { .. }) => Ok(None),
        Err(_) => Err(NoMemory),
    }
}

/// The key of a value of the attribute, if it can be read.
fn value_of(alloc: Global, attr: &AttrKey, value: &[u8]) -> Result<Option<Bytes>, NoMemory>
    ensures { IfOk result (λ key. key ≡ value_of (kind_of attr.now.name) value.now) }
{
    match value_key(alloc, attr, value) {
        Ok(key) => Ok(Some(key)),
        Err(KeyFault::BadValue { .. }) => Ok(None),
        Err(_) => Err(NoMemory),
    }
}

/// The key of a piece of a value of the attribute, if it can be read.
fn piece_of(alloc: Global, attr: &AttrKey, piece: &[u8]) -> Result<Option<Bytes>, NoMemory>
    ensures { IfOk result (λ key. key ≡ piece_of (kind_of attr.now.name) piece.now) }
{
    match piece_key(alloc, attr, piece) {
        Ok(key) => Ok(Some(key)),
        Err(KeyFault::BadValue { .. }) => Ok(None),
        Err(_) => Err(NoMemory),
    }
}

/// A comparison with a value, if the name and the value can be read.
pub(crate) fn comparison(
    alloc: Global,
    how: Comparison,
    name: &[u8],
    value: &[u8],
) -> Result<Option<Assertion>, NoMemory>
    ensures { IfOk result (λ a. maybe_meant a ≡ asserted (compares how value.now) (attr_of name.now)) }
{
    let Some(attr) = attr_of(alloc, name)? else {
        return Ok(None);
    };
    let Some(key) = value_of(alloc, &attr, value)? else {
        return Ok(None);
    };
    let test = Test::Compares { how, key };
    Ok(Some(Assertion { attr, test }))
}

/// The key of a piece that may be given. One that is not is the empty one.
fn maybe_piece(
    alloc: Global,
    attr: &AttrKey,
    piece: &Option<Bytes>,
) -> Result<Option<Bytes>, NoMemory>
    ensures { IfOk result (λ key. key ≡ maybe_piece (kind_of attr.now.name) piece.now) }
{
    match piece {
        None => Ok(Some(Bytes::new(alloc))),
        Some(piece) => piece_of(alloc, attr, piece.as_slice()),
    }
}

fn all_pieces(
    alloc: Global,
    attr: &AttrKey,
    pieces: &[Bytes],
) -> Result<Option<BytesList>, NoMemory>
    ensures { IfOk result (λ keys. keys ≡ all_pieces (kind_of attr.now.name) pieces.now) }
{
    let mut keys = BytesList::new(alloc);
    for piece in pieces {
        let Some(key) = piece_of(alloc, attr, piece.as_slice())? else {
            return Ok(None);
        };
        keys.push(key)?;
    }
    Ok(Some(keys))
}

fn is_integer(attr: &AttrKey) -> bool
    ensures { result ≡ is_integer (kind_of attr.now.name) }
{
    match kind_of(attr) {
        Kind::Int => true,
        Kind::Dir | Kind::Exact | Kind::Ia5 | Kind::Tel | Kind::Oct => false,
    }
}

fn pieces_test(
    alloc: Global,
    attr: &AttrKey,
    first: &Option<Bytes>,
    middle: &[Bytes],
    last: &Option<Bytes>,
) -> Result<Option<Test>, NoMemory>
    ensures { IfOk result (λ test. maybe_passes attr.now.name test ≡ with_pieces first.now middle.now last.now (kind_of attr.now.name)) }
{
    if is_integer(attr) {
        return Ok(None);
    }
    let Some(first) = maybe_piece(alloc, attr, first)? else {
        return Ok(None);
    };
    let Some(middle) = all_pieces(alloc, attr, middle)? else {
        return Ok(None);
    };
    let Some(last) = maybe_piece(alloc, attr, last)? else {
        return Ok(None);
    };
    Ok(Some(Test::Pieces {
        first,
        middle,
        last,
    }))
}

/// Pieces of a value, if the name and each of them can be read.
pub(crate) fn substrings(
    alloc: Global,
    name: &[u8],
    first: &Option<Bytes>,
    middle: &[Bytes],
    last: &Option<Bytes>,
) -> Result<Option<Assertion>, NoMemory>
    ensures { IfOk result (λ a. maybe_meant a ≡ asserted (with_pieces first.now middle.now last.now) (attr_of name.now)) }
{
    let Some(attr) = attr_of(alloc, name)? else {
        return Ok(None);
    };
    let Some(test) = pieces_test(alloc, &attr, first, middle, last)? else {
        return Ok(None);
    };
    Ok(Some(Assertion { attr, test }))
}
