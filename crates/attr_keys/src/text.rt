//! Values that are text: folding, spaces, phone numbers (RFC 4518).

ghost use Rattle.std.specs.Prelude.{◌≡◌, ◌+◌, ◌<◌, ◌≤◌, ◌&&◌, not, nat_le, MatchResult, MatchOption, IfOk, IfNone, drop, length, position, chars, string_bytes, encode_utf8_all};
ghost use Rattle.std.specs.List.{list_any};
ghost use Rattle.std.specs.Str.{IsAscii, IsErrorLen, valid_up_to, error_len};
ghost use Rattle.std.specs.Str.Lossy.{utf8_valid_len, utf8_error_len};
ghost use Rattle.caseless.specs.Caseless.{default_case_fold};
ghost use Rattle.unicode_normalization.specs.Forms.{nfkc};
ghost use Rattle.repl_data.specs.Key.{folded, squeezed, trimmed, without_last_space};
ghost use Rattle.attr_keys.specs.Value.{bad_text, bad_phone, bad_unless, has_text, is_mark, utf8_fault, character_fault, composed, phone_key};

use crate::name::lower;
use caseless::default_case_fold_str;
use repl_data::{Bytes, NoMemory};
use std::alloc::{AllocError, Global};
use std::str::{Utf8Error, from_utf8};
use unicode_normalization::to_nfkc;

pub(crate) fn has_text(value: &[u8]) -> bool
    ensures { result ≡ has_text value.now }
{
    value.iter().any(|b| *b != b' ')
}

/// The length, unless the bytes are good.
fn bad_unless(good: bool, value: &[u8]) -> Option<usize>
    ensures { result ≡ bad_unless good value.now }
{
    if good { None } else { Some(value.len()) }
}

fn character_fault(len: usize, valid: usize, first: u8, error_len: Option<usize>) -> usize
    requires { MatchOption error_len (Unit {0}) (λ k. valid + k ≤ len) }
    ensures { result ≡ character_fault len valid first error_len }
{
    match error_len {
        None => len,
        Some(k) => {
            if first >= 0xc2 && first <= 0xf4 {
                valid + k
            } else {
                valid
            }
        }
    }
}

#[tactic(auto, unfolding(crate::specs::Value::utf8_fault))]
fn utf8_fault(value: &[u8], fault: &Utf8Error) -> usize
    requires valid { valid_up_to fault.now ≡ utf8_valid_len value.now }
    requires fault { error_len fault.now ≡ utf8_error_len (drop (utf8_valid_len value.now) value.now) }
    requires within { IsErrorLen value.now (valid_up_to fault.now) (error_len fault.now) }
    requires short { valid_up_to fault.now < length value.now }
    ensures { result ≡ utf8_fault value.now }
{
    let valid = fault.valid_up_to();
    character_fault(value.len(), valid, value[valid], fault.error_len())
}

/// The text that the bytes are, or the place at which they are none that is accepted.
#[tactic(auto, unfolding(crate::specs::Value::bad_text))]
pub(crate) fn text_of(value: &[u8]) -> Result<&str, usize>
    ensures { MatchResult result (λ s. (s.now ≡ value.now) × (bad_text value.now ≡ None))
        (λ place. bad_text value.now ≡ Some place) }
{
    match from_utf8(value) {
        Ok(text) => {
            if has_text(value) {
                Ok(text)
            } else {
                Err(value.len())
            }
        }
        Err(fault) => Err(utf8_fault(value, &fault)),
    }
}

fn first_from_128(value: &[u8]) -> Option<usize>
    ensures { result ≡ position (λ b. nat_le 128 b) value.now }
{
    value.iter().position(|b| *b >= 128)
}

/// The place of the first byte that is not ASCII.
pub(crate) fn first_not_ascii(value: &[u8]) -> Option<usize>
    ensures place { result ≡ position (λ b. nat_le 128 b) value.now }
    ensures ascii { IfNone result (IsAscii value.now) }
{
    first_from_128(value)
}

/// The place of the first byte that is no printable character of ASCII.
fn first_not_printable(value: &[u8]) -> Option<usize>
    ensures { result ≡ position (λ b. not (nat_le 32 b && nat_le b 126)) value.now }
{
    value.iter().position(|b| !(*b >= b' ' && *b <= b'~'))
}

fn has_digits(value: &[u8]) -> bool
    ensures { result ≡ list_any (λ b. not (is_mark b)) value.now }
{
    value.iter().any(|b| !(*b == b' ' || *b == b'-'))
}

pub(crate) fn bad_phone(value: &[u8]) -> Option<usize>
    ensures { result ≡ bad_phone value.now }
{
    match first_not_printable(value) {
        Some(at) => Some(at),
        None => bad_unless(has_digits(value), value),
    }
}

fn is_mark(b: u8) -> bool
    ensures { result ≡ is_mark b }
{
    b == b' ' || b == b'-'
}

pub(crate) fn phone_key(alloc: Global, value: &[u8]) -> Result<Bytes, NoMemory>
    ensures { IfOk result (λ key. key ≡ phone_key value.now) }
{
    let mut key = Bytes::new(alloc);
    for b in value {
        if is_mark(*b) {
            continue;
        }
        key.push(b.to_ascii_lowercase())?;
    }
    Ok(key)
}

/// In lower case, of ASCII text: what folding and normalizing give, without their tables.
pub(crate) fn folded_ascii(alloc: Global, value: &[u8]) -> Result<Bytes, NoMemory>
    requires { IsAscii value.now }
    ensures { IfOk result (λ t. t ≡ folded value.now) }
{
    lower(alloc, value)
}

fn folded_string(alloc: Global, text: &str) -> Result<String, AllocError>
    ensures { IfOk result (λ t. string_bytes t ≡ encode_utf8_all (nfkc (default_case_fold (chars text.now)))) }
{
    let folded = default_case_fold_str(alloc, text)?;
    to_nfkc(alloc, folded.as_str())
}

#[tactic(auto, unfolding(repl_data::specs::Key::folded))]
fn folded_unicode(alloc: Global, text: &str) -> Result<Bytes, NoMemory>
    ensures { IfOk result (λ t. t ≡ folded text.now) }
{
    let key = folded_string(alloc, text)?;
    Ok(Bytes::from_vec(key.into_bytes()))
}

/// The text folded, and then in NFKC.
pub(crate) fn folded(alloc: Global, text: &str) -> Result<Bytes, NoMemory>
    ensures { IfOk result (λ t. t ≡ folded text.now) }
{
    if text.is_ascii() {
        folded_ascii(alloc, text.as_bytes())
    } else {
        folded_unicode(alloc, text)
    }
}

/// The text in NFKC.
#[tactic(auto, unfolding(crate::specs::Value::composed))]
pub(crate) fn composed(alloc: Global, text: &str) -> Result<Bytes, NoMemory>
    ensures { IfOk result (λ t. t ≡ composed text.now) }
{
    let key = to_nfkc(alloc, text)?;
    Ok(Bytes::from_vec(key.into_bytes()))
}

/// Runs of spaces made one. `after`: no space is kept at the front.
pub(crate) fn squeezed(alloc: Global, text: &[u8], after: bool) -> Result<Bytes, NoMemory>
    ensures { IfOk result (λ t. t ≡ squeezed after text.now) }
{
    let mut out = Bytes::new(alloc);
    let mut space = after;
    for b in text {
        if space && *b == b' ' {
            continue;
        }
        out.push(*b)?;
        space = *b == b' ';
    }
    Ok(out)
}

/// Outer spaces dropped, and runs of spaces made one.
pub(crate) fn trimmed(alloc: Global, text: &[u8]) -> Result<Bytes, NoMemory>
    ensures { IfOk result (λ t. t ≡ trimmed text.now) }
{
    let mut out = squeezed(alloc, text, true)?;
    drop_last_space(&mut out);
    Ok(out)
}

fn drop_last_space(text: &mut Bytes)
    ensures { text.new ≡ without_last_space text.old }
{
    let len = text.len();
    if len > 0 {
        if text.as_slice()[len - 1] == b' ' {
            text.remove(len - 1);
        }
    }
}
