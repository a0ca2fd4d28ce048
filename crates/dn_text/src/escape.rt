//! Escapes in values (RFC 4514, section 2.4).

ghost use Rattle.std.specs.Prelude.{◌≡◌, ◌+◌, ◌++◌, ◌<◌, ◌^◌, length, IfSome, OnOk};
ghost use Rattle.std.specs.Option.{option_to_list};
ghost use Rattle.dn_text.specs.Escape.{is_special, is_refused, hex_digit, hex_byte, after_slash, after_digit, next_escape, next_byte, ended, escapes_from, value_of};
ghost use Rattle.dn_text.specs.Fault.{Gives};

use crate::fault::{DnFault, DnWhy};
use repl_data::{Bytes, NoMemory};
use std::alloc::Global;

/// Where the reading of escapes stands.
#[derive(Clone, Copy, Debug, Eq, PartialEq)]
pub(crate) enum EscapeState {
    /// After a whole byte.
    Whole,
    /// After a backslash at this place.
    Slash { place: usize },
    /// After a backslash at this place and this hexadecimal digit.
    Digit { place: usize, high: u8 },
}

/// Where the reading stands after a byte, and the byte of the value that ends with it, if one does.
type Step = Result<(EscapeState, Option<u8>), DnFault>;

fn bad_char(place: usize) -> DnFault
    ensures { result ≡ DnFault.BadDn place DnWhy.Char }
{
    DnFault::BadDn {
        place,
        why: DnWhy::Char,
    }
}

fn is_special(b: u8) -> bool
    ensures { result ≡ is_special b }
{
    matches!(
        b,
        b'"' | b'+' | b',' | b';' | b'<' | b'>' | b'\\' | b'=' | b' ' | b'#'
    )
}

fn is_refused(b: u8) -> bool
    ensures { result ≡ is_refused b }
{
    matches!(b, b'"' | b';' | b'<' | b'>')
}

fn hex_digit(b: u8) -> Option<u8>
    ensures value { result ≡ hex_digit b }
    ensures below { IfSome result (λ d. d < 16) }
{
    match b {
        b'0'..=b'9' => Some(b - b'0'),
        b'a'..=b'f' => Some(b - b'a' + 10),
        b'A'..=b'F' => Some(b - b'A' + 10),
        _ => None,
    }
}

/// The byte that two hexadecimal digits spell.
fn hex_byte(high: u8, low: u8) -> Option<u8>
    ensures { result ≡ hex_byte high low }
{
    match hex_digit(high) {
        None => None,
        Some(high) => match hex_digit(low) {
            None => None,
            Some(low) => Some(16 * high + low),
        },
    }
}

fn after_slash(place: usize, b: u8) -> Step
    ensures { result ≡ after_slash place b }
{
    if is_special(b) {
        return Ok((EscapeState::Whole, Some(b)));
    }
    match hex_digit(b) {
        Some(_) => Ok((EscapeState::Digit { place, high: b }, None)),
        None => Err(bad_char(place)),
    }
}

fn after_digit(place: usize, high: u8, b: u8) -> Step
    ensures { result ≡ after_digit place high b }
{
    match hex_byte(high, b) {
        Some(byte) => Ok((EscapeState::Whole, Some(byte))),
        None => Err(bad_char(place)),
    }
}

fn next_escape(state: EscapeState, at: usize, b: u8) -> Step
    ensures { result ≡ next_escape state at b }
{
    match state {
        EscapeState::Whole => {
            if b == b'\\' {
                Ok((EscapeState::Slash { place: at }, None))
            } else {
                Ok((EscapeState::Whole, Some(b)))
            }
        }
        EscapeState::Slash { place } => after_slash(place, b),
        EscapeState::Digit { place, high } => after_digit(place, high, b),
    }
}

/// The same in a value, in which some bytes do not stand as they are.
fn next_byte(state: EscapeState, at: usize, b: u8) -> Step
    ensures { result ≡ next_byte state at b }
{
    match state {
        EscapeState::Whole => {
            if is_refused(b) {
                Err(bad_char(at))
            } else {
                next_escape(EscapeState::Whole, at, b)
            }
        }
        EscapeState::Slash { place } => after_slash(place, b),
        EscapeState::Digit { place, high } => after_digit(place, high, b),
    }
}

/// No escape may be open at the end.
fn ended(state: EscapeState) -> Result<(), DnFault>
    ensures { result ≡ ended state }
{
    match state {
        EscapeState::Whole => Ok(()),
        EscapeState::Slash { place } | EscapeState::Digit { place, .. } => Err(bad_char(place)),
    }
}

/// Each backslash of the text, which begins at the place `start`, begins an escape.
#[tactic(auto, using(crate::proofs::Values::escapes_end))]
pub(crate) fn check_escapes(start: usize, text: &[u8]) -> Result<(), DnFault>
    requires { start + length text.now < 2 ^ 64 }
    ensures { result ≡ escapes_from EscapeState.Whole start text.now }
{
    let mut state = EscapeState::Whole;
    for (at, b) in text.iter().enumerate() {
        match next_escape(state, start + at, *b) {
            Ok((next, _)) => state = next,
            Err(e) => return Err(e),
        }
    }
    ended(state)
}

fn put_byte(value: &mut Bytes, byte: Option<u8>) -> Result<(), NoMemory>
    ensures { OnOk result (value.new ≡ value.old ++ option_to_list byte) }
{
    match byte {
        Some(byte) => value.push(byte),
        None => Ok(()),
    }
}

/// The bytes of the value whose text this is, which begins at the place `start`.
#[tactic(auto, using(crate::proofs::Values::value_goes_on))]
pub(crate) fn value(alloc: Global, start: usize, text: &[u8]) -> Result<Bytes, DnFault>
    requires { start + length text.now < 2 ^ 64 }
    ensures { Gives result (value_of start text.now) }
{
    let mut value = Bytes::new(alloc);
    let mut state = EscapeState::Whole;
    for (at, b) in text.iter().enumerate() {
        let (next, byte) = next_byte(state, start + at, *b)?;
        put_byte(&mut value, byte)?;
        state = next;
    }
    ended(state)?;
    Ok(value)
}
