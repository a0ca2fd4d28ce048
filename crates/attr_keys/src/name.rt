//! Attribute names and their keys (RFC 4512, sections 1.4 and 2.5).

ghost use Rattle.std.specs.Prelude.{◌≡◌, ◌≢◌, ◌≤◌, ◌↔◌, ◌<◌, ◌==◌, ℕ, IfOk, IsOk, IfSome, position, map, length};
ghost use Rattle.std.specs.Char.{to_ascii_lowercase};
ghost use Rattle.attr_keys.specs.Name.{next_state, may_end, bad_name, base_len};
ghost use Rattle.attr_keys.specs.Table.{key_of};

use crate::fault::KeyFault;
use crate::table::first_name;
use repl_data::{AttrKey, Bytes, NoMemory};
use std::alloc::Global;

/// What may come next in a name (RFC 4512, sections 1.4 and 2.5).
#[derive(Clone, Copy, Debug, Drop, Eq, PartialEq)]
enum NameState {
    /// A word or a dotted number begins.
    Start,
    /// In a word, or in an option.
    Word,
    /// After a semicolon.
    NewOption,
    /// After a dot.
    Arc,
    /// After a number 0. `dotted`: a dot came.
    Zero { dotted: bool },
    /// In a number that is not 0. `dotted`: a dot came.
    Digits { dotted: bool },
}

fn after_start(b: u8) -> Option<NameState>
    ensures { result ≡ next_state NameState.Start b }
{
    match b {
        b'A'..=b'Z' | b'a'..=b'z' => Some(NameState::Word),
        b'0' => Some(NameState::Zero { dotted: false }),
        b'1'..=b'9' => Some(NameState::Digits { dotted: false }),
        _ => None,
    }
}

fn after_word(b: u8) -> Option<NameState>
    ensures { result ≡ next_state NameState.Word b }
{
    match b {
        b'A'..=b'Z' | b'a'..=b'z' | b'0'..=b'9' | b'-' => Some(NameState::Word),
        b';' => Some(NameState::NewOption),
        _ => None,
    }
}

fn after_semicolon(b: u8) -> Option<NameState>
    ensures { result ≡ next_state NameState.NewOption b }
{
    match b {
        b'A'..=b'Z' | b'a'..=b'z' | b'0'..=b'9' | b'-' => Some(NameState::Word),
        _ => None,
    }
}

fn after_dot(b: u8) -> Option<NameState>
    ensures { result ≡ next_state NameState.Arc b }
{
    match b {
        b'0' => Some(NameState::Zero { dotted: true }),
        b'1'..=b'9' => Some(NameState::Digits { dotted: true }),
        _ => None,
    }
}

fn after_zero(dotted: bool, b: u8) -> Option<NameState>
    ensures { result ≡ next_state (NameState.Zero dotted) b }
{
    match b {
        b'.' => Some(NameState::Arc),
        b';' if dotted => Some(NameState::NewOption),
        _ => None,
    }
}

fn after_digits(dotted: bool, b: u8) -> Option<NameState>
    ensures { result ≡ next_state (NameState.Digits dotted) b }
{
    match b {
        b'0'..=b'9' => Some(NameState::Digits { dotted }),
        b'.' => Some(NameState::Arc),
        b';' if dotted => Some(NameState::NewOption),
        _ => None,
    }
}

fn next_state(state: NameState, b: u8) -> Option<NameState>
    ensures { result ≡ next_state state b }
{
    match state {
        NameState::Start => after_start(b),
        NameState::Word => after_word(b),
        NameState::NewOption => after_semicolon(b),
        NameState::Arc => after_dot(b),
        NameState::Zero { dotted } => after_zero(dotted, b),
        NameState::Digits { dotted } => after_digits(dotted, b),
    }
}

fn may_end(state: NameState) -> bool
    ensures { result ≡ may_end state }
{
    match state {
        NameState::Word => true,
        NameState::Zero { dotted } | NameState::Digits { dotted } => dotted,
        _ => false,
    }
}

/// The first byte that no attribute name has there, or the length if the name ends too early.
fn bad_place(name: &[u8]) -> Option<usize>
    ensures value { result ≡ bad_name name.now }
    ensures within { IfSome result (λ place. place ≤ length name.now) }
{
    let mut state = NameState::Start;
    for (at, b) in name.iter().enumerate() {
        let Some(next) = next_state(state, *b) else {
            return Some(at);
        };
        state = next;
    }
    if may_end(state) {
        None
    } else {
        Some(name.len())
    }
}

pub(crate) fn lower(alloc: Global, text: &[u8]) -> Result<Bytes, NoMemory>
    ensures { IfOk result (λ t. t ≡ map to_ascii_lowercase text.now) }
{
    let lowered = text.iter().map(|b| b.to_ascii_lowercase()).collect(alloc)?;
    Ok(Bytes::from_vec(lowered))
}

fn first_semicolon(name: &[u8]) -> Option<usize>
    ensures value { result ≡ position (λ c. c == 59) name.now }
    ensures within { IfSome result (λ at. at < length name.now) }
{
    name.iter().position(|b| *b == b';')
}

/// How many bytes are before the first semicolon.
pub(crate) fn base_len(name: &[u8]) -> usize
    ensures value { result ≡ base_len name.now }
    ensures within { result ≤ length name.now }
{
    match first_semicolon(name) {
        Some(at) => at,
        None => name.len(),
    }
}

#[tactic(auto, unfolding(crate::specs::Table::key_of))]
fn key_of(alloc: Global, name: &[u8]) -> Result<Bytes, NoMemory>
    ensures { IfOk result (λ key. key ≡ key_of name.now) }
{
    let base = base_len(name);
    let lowered = lower(alloc, &name[..base])?;
    let mut key = Bytes::from_slice(alloc, first_name(lowered.as_slice()))?;
    let options = lower(alloc, &name[base..])?;
    key.append(options)?;
    Ok(key)
}

/// The key of an attribute name: the name in lower case, with the first of its names where the type
/// has two. Options are part of the key (RFC 4512, section 2.5).
///
/// A name is a letter followed by letters, digits and hyphens, or a dotted number of at least two
/// arcs without needless zeros, and any count of options, each a semicolon and at least one letter,
/// digit or hyphen (RFC 4512, sections 1.4 and 2.5). In time linear in the name.
pub fn attr_key(alloc: Global, name: &[u8]) -> Result<AttrKey, KeyFault>
    ensures key { IfOk result (λ attr. attr.name ≡ key_of name.now) }
    ensures ok { IsOk result → bad_name name.now ≡ None }

    // BadName comes exactly for what is no name, with the place at fault.
    ensures bad { (place : ℕ) → (result ≡ Err (KeyFault.BadName place)) ↔ (bad_name name.now ≡ Some place) }
    ensures value { (place : ℕ) → result ≢ Err (KeyFault.BadValue place) }
    ensures within { (place : ℕ) → result ≡ Err (KeyFault.BadName place) → place ≤ length name.now }
{
    if let Some(place) = bad_place(name) {
        return Err(KeyFault::BadName { place });
    }
    match key_of(alloc, name) {
        Ok(name) => Ok(AttrKey { name }),
        Err(NoMemory) => Err(KeyFault::NoMemory),
    }
}
