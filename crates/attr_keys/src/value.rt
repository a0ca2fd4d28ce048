//! The key of a value by the kind of its type.

ghost use Rattle.std.specs.Prelude.{◌≡◌, IfOk, IfErr, IsOk};
ghost use Rattle.attr_keys.specs.Table.{kind_of};
ghost use Rattle.attr_keys.specs.Value.{bad_value, IsValueFault, prepared, is_spaced, value_key, piece_key, integer_of, by_value, compared};
ghost use Rattle.std.specs.Cmp.Lexicographic.{slice_cmp};
ghost use Rattle.std.specs.Ordering.{nat_cmp};

use crate::fault::KeyFault;
use crate::kind::Kind;
use crate::number::{bad_integer, integer_of};
use crate::table::kind_of;
use crate::text::{
    bad_phone, composed, first_not_ascii, folded, folded_ascii, has_text, phone_key, squeezed,
    text_of, trimmed,
};
use repl_data::{AttrKey, Bytes, NoMemory};
use std::alloc::Global;
use std::cmp::Ordering;

fn told(made: Result<Bytes, NoMemory>) -> Result<Bytes, KeyFault>
    ensures ok { IfOk result (λ key. made ≡ Ok key) }
    ensures err { IfErr result (λ e. e ≡ KeyFault.NoMemory) }
{
    match made {
        Ok(key) => Ok(key),
        Err(NoMemory) => Err(KeyFault::NoMemory),
    }
}

#[tactic(auto, unfolding(crate::specs::Value::bad_value, crate::specs::Value::prepared))]
fn prepared_dir(alloc: Global, value: &[u8]) -> Result<Bytes, KeyFault>
    ensures ok { IfOk result (λ key. (bad_value Kind.Dir value.now ≡ None) × (key ≡ prepared Kind.Dir value.now)) }
    ensures err { IfErr result (λ e. IsValueFault (bad_value Kind.Dir value.now) e) }
{
    match text_of(value) {
        Ok(text) => told(folded(alloc, text)),
        Err(place) => Err(KeyFault::BadValue { place }),
    }
}

#[tactic(auto, unfolding(crate::specs::Value::bad_value, crate::specs::Value::prepared))]
fn prepared_exact(alloc: Global, value: &[u8]) -> Result<Bytes, KeyFault>
    ensures ok { IfOk result (λ key. (bad_value Kind.Exact value.now ≡ None) × (key ≡ prepared Kind.Exact value.now)) }
    ensures err { IfErr result (λ e. IsValueFault (bad_value Kind.Exact value.now) e) }
{
    match text_of(value) {
        Ok(text) => told(composed(alloc, text)),
        Err(place) => Err(KeyFault::BadValue { place }),
    }
}

#[tactic(auto, unfolding(crate::specs::Value::bad_value, crate::specs::Value::prepared))]
fn prepared_ia5(alloc: Global, value: &[u8]) -> Result<Bytes, KeyFault>
    ensures ok { IfOk result (λ key. (bad_value Kind.Ia5 value.now ≡ None) × (key ≡ prepared Kind.Ia5 value.now)) }
    ensures err { IfErr result (λ e. IsValueFault (bad_value Kind.Ia5 value.now) e) }
{
    if let Some(place) = first_not_ascii(value) {
        return Err(KeyFault::BadValue { place });
    }
    if has_text(value) {
        told(folded_ascii(alloc, value))
    } else {
        Err(KeyFault::BadValue { place: value.len() })
    }
}

#[tactic(auto, unfolding(crate::specs::Value::bad_value, crate::specs::Value::prepared))]
fn prepared_int(alloc: Global, value: &[u8]) -> Result<Bytes, KeyFault>
    ensures ok { IfOk result (λ key. (bad_value Kind.Int value.now ≡ None) × (key ≡ prepared Kind.Int value.now)) }
    ensures err { IfErr result (λ e. IsValueFault (bad_value Kind.Int value.now) e) }
{
    match bad_integer(value) {
        None => told(Bytes::from_slice(alloc, value)),
        Some(place) => Err(KeyFault::BadValue { place }),
    }
}

#[tactic(auto, unfolding(crate::specs::Value::bad_value, crate::specs::Value::prepared))]
fn prepared_phone(alloc: Global, value: &[u8]) -> Result<Bytes, KeyFault>
    ensures ok { IfOk result (λ key. (bad_value Kind.Tel value.now ≡ None) × (key ≡ prepared Kind.Tel value.now)) }
    ensures err { IfErr result (λ e. IsValueFault (bad_value Kind.Tel value.now) e) }
{
    match bad_phone(value) {
        None => told(phone_key(alloc, value)),
        Some(place) => Err(KeyFault::BadValue { place }),
    }
}

#[tactic(auto, unfolding(crate::specs::Value::bad_value, crate::specs::Value::prepared))]
fn prepared_bytes(alloc: Global, value: &[u8]) -> Result<Bytes, KeyFault>
    ensures ok { IfOk result (λ key. (bad_value Kind.Oct value.now ≡ None) × (key ≡ prepared Kind.Oct value.now)) }
    ensures err { IfErr result (λ e. IsValueFault (bad_value Kind.Oct value.now) e) }
{
    told(Bytes::from_slice(alloc, value))
}

fn prepared(alloc: Global, kind: Kind, value: &[u8]) -> Result<Bytes, KeyFault>
    ensures ok { IfOk result (λ key. (bad_value kind value.now ≡ None) × (key ≡ prepared kind value.now)) }
    ensures err { IfErr result (λ e. IsValueFault (bad_value kind value.now) e) }
{
    match kind {
        Kind::Dir => prepared_dir(alloc, value),
        Kind::Exact => prepared_exact(alloc, value),
        Kind::Ia5 => prepared_ia5(alloc, value),
        Kind::Int => prepared_int(alloc, value),
        Kind::Tel => prepared_phone(alloc, value),
        Kind::Oct => prepared_bytes(alloc, value),
    }
}

fn is_spaced(kind: Kind) -> bool
    ensures { result ≡ is_spaced kind }
{
    match kind {
        Kind::Dir | Kind::Exact | Kind::Ia5 => true,
        Kind::Int | Kind::Tel | Kind::Oct => false,
    }
}

/// The key of a value of this attribute: two values are equal where their keys are (RFC 4518).
///
/// Text is folded by full case folding (but for the kind that compares with regard to case) and put
/// into the form NFKC; then outer spaces are dropped, and each run of spaces is made one. Phone
/// numbers lose spaces and hyphens. A value of ASCII looks into no table. In time linear in the
/// value, but for runs of combining marks, which are sorted.
#[tactic(auto, unfolding(crate::specs::Value::value_key))]
pub fn value_key(alloc: Global, attr: &AttrKey, value: &[u8]) -> Result<Bytes, KeyFault>
    ensures key { IfOk result (λ key. key ≡ value_key (kind_of attr.now.name) value.now) }
    ensures ok { IsOk result → bad_value (kind_of attr.now.name) value.now ≡ None }

    // BadValue comes exactly for what is not accepted, with the place at fault.
    ensures err { IfErr result (λ e. IsValueFault (bad_value (kind_of attr.now.name) value.now) e) }
{
    let kind = kind_of(attr);
    let text = prepared(alloc, kind, value)?;
    if is_spaced(kind) {
        told(trimmed(alloc, text.as_slice()))
    } else {
        Ok(text)
    }
}

/// The key of a piece of a value, of those that a substring filter has (RFC 4511, section 4.5.1.7.2):
/// as `value_key`, but a run of spaces at either end is kept as one.
#[tactic(auto, unfolding(crate::specs::Value::piece_key))]
pub fn piece_key(alloc: Global, attr: &AttrKey, value: &[u8]) -> Result<Bytes, KeyFault>
    ensures key { IfOk result (λ key. key ≡ piece_key (kind_of attr.now.name) value.now) }
    ensures ok { IsOk result → bad_value (kind_of attr.now.name) value.now ≡ None }
    ensures err { IfErr result (λ e. IsValueFault (bad_value (kind_of attr.now.name) value.now) e) }
{
    let kind = kind_of(attr);
    let text = prepared(alloc, kind, value)?;
    if is_spaced(kind) {
        told(squeezed(alloc, text.as_slice(), false))
    } else {
        Ok(text)
    }
}

fn compare_integers(a: &[u8], b: &[u8]) -> Ordering
    ensures { result ≡ by_value (integer_of a.now) (integer_of b.now) (slice_cmp nat_cmp a.now b.now) }
{
    match integer_of(a) {
        None => a.cmp(b),
        Some(x) => match integer_of(b) {
            None => a.cmp(b),
            Some(y) => x.cmp(&y),
        },
    }
}

/// The order of two keys of this attribute: integers by value, and all others by their bytes (RFC
/// 4517, section 4.2).
#[tactic(auto, unfolding(crate::specs::Value::compared))]
pub fn compare_keys(attr: &AttrKey, a: &[u8], b: &[u8]) -> Ordering
    ensures { result ≡ compared (kind_of attr.now.name) a.now b.now }
{
    match kind_of(attr) {
        Kind::Int => compare_integers(a, b),
        Kind::Dir | Kind::Exact | Kind::Ia5 | Kind::Tel | Kind::Oct => a.cmp(b),
    }
}
