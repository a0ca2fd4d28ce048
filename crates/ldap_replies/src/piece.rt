//! Elements and integers in the writer's form alone.

ghost use Rattle.std.specs.Prelude.{◌≡◌, length};
ghost use Rattle.ber_core.specs.Number.{drop_zeros, sign_byte, drop_needless, shortest_integer};
ghost use Rattle.ber_core.specs.Cursor.{Gives, pair, window, with_window};
ghost use Rattle.ber_core.specs.Window.{many, octets};
ghost use Rattle.ldap_replies.specs.Grammar.{header_bytes, open_exact, exact_optional, text, exact_int};

use ber_core::{Cursor, NotLdapWhy, ReadFault};
use ldap_types::{Bytes, BytesList};
use std::alloc::Global;

/// How many of the digits there are without the zeros in front.
fn digit_count(digits: &[u8]) -> usize
    ensures { result ≡ length (drop_zeros digits.now) }
{
    match digits {
        [0, rest @ ..] => digit_count(rest),
        _ => digits.len(),
    }
}

/// How many bytes the tag and the length of so much content have, where the length has the fewest.
#[tactic(auto, unfolding(ber_core::specs::Element::shortest_length))]
fn header_bytes(content: usize) -> usize
    ensures { result ≡ header_bytes content }
{
    if content < 0x80 {
        2
    } else {
        2 + digit_count(&(content as u64).to_be_bytes())
    }
}

/// What is inside the element here and what is after it, where its tag is this one and its length
/// has the fewest bytes.
#[tactic(auto, unfolding(crate::specs::Grammar::open_exact))]
pub(crate) fn open_exact(w: Cursor<'_>, tag: u8) -> Result<(Cursor<'_>, Cursor<'_>), ReadFault>
    ensures { Gives pair result (open_exact tag (window w.entry)) }
{
    let (inside, rest) = w.open_as(tag)?;
    if inside.at.saturating_sub(w.at) == header_bytes(inside.left) {
        Ok((inside, rest))
    } else {
        Err(ReadFault::NotLdap {
            place: w.at,
            why: NotLdapWhy::Shape,
        })
    }
}

#[tactic(auto, unfolding(crate::specs::Grammar::exact))]
pub(crate) fn text(alloc: Global, w: Cursor) -> Result<(Bytes, Cursor), ReadFault>
    ensures { Gives with_window result (text (window w.entry)) }
{
    let (inside, rest) = open_exact(w, 0x04)?;
    let bytes = Bytes::from_slice(alloc, inside.octets()?)?;
    Ok((bytes, rest))
}

pub(crate) fn texts(alloc: Global, w: Cursor) -> Result<BytesList, ReadFault>
    ensures { Gives (λ xs. xs) result (many text (window w.entry)) }
{
    let mut all = BytesList::new(alloc);
    let mut here = w;
    for _ in 0..w.left {
        if here.left == 0 {
            return Ok(all);
        }
        let (one, rest) = text(alloc, here)?;
        all.push(one)?;
        here = rest;
    }
    Ok(all)
}

#[tactic(auto, unfolding(crate::specs::Grammar::exact_optional, crate::specs::Grammar::exact))]
pub(crate) fn optional_text(
    alloc: Global,
    tag: u8,
    w: Cursor,
) -> Result<(Option<Bytes>, Cursor), ReadFault>
    ensures { Gives with_window result (exact_optional tag octets (window w.entry)) }
{
    if w.left == 0 {
        return Ok((None, w));
    }
    if w.tag()? != tag {
        return Ok((None, w));
    }
    let (inside, rest) = open_exact(w, tag)?;
    let bytes = Bytes::from_slice(alloc, inside.octets()?)?;
    Ok((Some(bytes), rest))
}

/// The byte that says no more than the sign of these, in front of them (X.690, section 8.3.2).
fn sign_byte(bytes: &[u8]) -> u8
    ensures { result ≡ sign_byte bytes.now }
{
    match bytes {
        [0x80..=0xff, ..] => 0xff,
        _ => 0,
    }
}

/// How many of the bytes are left without the needless ones in front.
#[tactic(auto, unfolding(ber_core::specs::Number::drop_needless))]
fn needed(bytes: &[u8]) -> usize
    ensures { result ≡ length (drop_needless bytes.now) }
{
    match bytes {
        [b, rest @ ..] if !rest.is_empty() && *b == sign_byte(rest) => needed(rest),
        _ => bytes.len(),
    }
}

/// How few bytes spell the integer.
#[tactic(auto, unfolding(ber_core::specs::Number::shortest_integer))]
fn integer_size(value: i64) -> usize
    ensures { result ≡ length (shortest_integer value) }
{
    needed(&value.to_be_bytes())
}

/// The integer that the content here is, in the fewest bytes.
#[tactic(auto, unfolding(crate::specs::Grammar::exact_int))]
pub(crate) fn exact_int(w: Cursor) -> Result<i64, ReadFault>
    ensures { Gives (λ z. z) result (exact_int (window w.entry)) }
{
    let value = w.int()?;
    if w.left == integer_size(value) {
        Ok(value)
    } else {
        Err(ReadFault::NotLdap {
            place: w.start,
            why: NotLdapWhy::Shape,
        })
    }
}
