//! Writing elements and integers, and the laws of both ways.

ghost use Rattle.std.specs.Prelude.{◌≡◌, ◌<◌, ◌≤◌, ◌+◌, ◌^◌, ◌++◌, ◌⊎◌, ℕ, ℤ, List, length, vec_len, vec_capacity, OnOk, OnErr, FitsSigned};
ghost use Rattle.std.specs.Int.{w64};
ghost use Rattle.ber_core.specs.Number.{IsBytes, drop_zeros, drop_needless, integer_of, shortest_integer};
ghost use Rattle.ber_core.specs.Element.{IsTag, IsLength, IsElement, shortest_length, element};

use crate::number::sign_byte;
use repl_data::{Bytes, NoMemory};
use std::alloc::Global;
use std::mem;

fn without_zeros(bytes: &[u8]) -> &[u8]
    ensures value { result.now ≡ drop_zeros bytes.now }
    ensures len { length result.now ≤ length bytes.now }
{
    match bytes {
        [0, rest @ ..] => without_zeros(rest),
        _ => bytes,
    }
}

/// The fewest bytes of the same integer.
#[tactic(auto, unfolding(crate::specs::Number::drop_needless))]
fn without_needless(bytes: &[u8]) -> &[u8]
    ensures { result.now ≡ drop_needless bytes.now }
{
    match bytes {
        [b, rest @ ..] if !rest.is_empty() && *b == sign_byte(rest) => without_needless(rest),
        _ => bytes,
    }
}

/// Appends the length in its shortest form, for which there is room.
#[tactic(auto, unfolding(crate::specs::Element::shortest_length))]
fn push_length(out: &mut Vec<u8>, n: usize)
    requires { vec_len out.old + 9 ≤ vec_capacity out.old }
    ensures value { out.new.items ≡ out.old.items ++ shortest_length n }
    ensures len { vec_len out.new ≤ vec_len out.old + 9 }
    ensures capacity { vec_capacity out.old ≤ vec_capacity out.new }
{
    if n < 0x80 {
        out.push_reserved(n as u8);
    } else {
        let bytes = (n as u64).to_be_bytes();
        let digits = without_zeros(&bytes);
        out.push_reserved(0x80 + digits.len() as u8);
        out.extend_from_slice(digits).unwrap();
    }
}

/// Appends the element. All the room is made first, so that an error leaves nothing behind.
#[tactic(auto, unfolding(crate::specs::Element::element))]
fn push_element(out: &mut Vec<u8>, tag: u8, body: &[u8]) -> Result<(), NoMemory>
    ensures ok { OnOk result (out.new.items ≡ out.old.items ++ element tag body.now) }
    ensures err { OnErr result (out.new.items ≡ out.old.items) }
{
    out.reserve(10 + body.len())?;
    out.push_reserved(tag);
    push_length(out, body.len());
    out.extend_from_slice(body).unwrap();
    Ok(())
}

/// Appends the element with this tag and this content, its length in the fewest bytes (X.690,
/// section 8.1.3). An element with others inside is written once its content stands.
///
/// Copies the content once; what stands in `out` moves only where its memory grows.
pub fn write_tlv(alloc: Global, out: &mut Bytes, tag: u8, body: &[u8]) -> Result<(), NoMemory>
    ensures ok { OnOk result (out.new ≡ out.old ++ element tag body.now) }
    ensures err { OnErr result (out.new ≡ out.old) }
{
    // The vector inside can make all its room beforehand.
    let mut bytes = mem::replace(out, Bytes::new(alloc)).into_vec();
    let written = push_element(&mut bytes, tag, body);
    *out = Bytes::from_vec(bytes);
    written
}

/// Appends the integer as an INTEGER, tag 02, its content in the fewest bytes (X.690, section 8.3).
#[tactic(auto, unfolding(crate::specs::Number::shortest_integer))]
pub fn write_int(alloc: Global, out: &mut Bytes, value: i64) -> Result<(), NoMemory>
    ensures ok { OnOk result (out.new ≡ out.old ++ element 2 (shortest_integer value)) }
    ensures err { OnErr result (out.new ≡ out.old) }
{
    let bytes = value.to_be_bytes();
    write_tlv(alloc, out, 2, without_needless(&bytes))
}

/// What elements, lengths and integers and their bytes are to one another.
pub fn ber_laws()
    // Bytes begin with at most one element.
    ensures one { (whole other rest others body content : List ℕ) (tag kind : ℕ)
        → IsElement whole tag body → IsElement other kind content → whole ++ rest ≡ other ++ others
        → (whole ≡ other) × (tag ≡ kind) × (body ≡ content) }

    // What is written is an element with this tag and this content.
    ensures written { (tag : ℕ) (body : List ℕ) → IsTag tag → length body < 2 ^ 64
        → IsElement (element tag body) tag body }

    // No other bytes that say the same length are as few as those that are written.
    ensures shortest { (len : List ℕ) (n : ℕ) → IsBytes len → IsLength len n
        → (len ≡ shortest_length n) ⊎ (length (shortest_length n) < length len) }

    // An integer is read as it was written, and no other bytes of it are as few.
    ensures integer_again { (z : ℤ) → FitsSigned w64 z → integer_of (shortest_integer z) ≡ Some z }
    ensures shortest_integer { (bytes : List ℕ) (z : ℤ) → IsBytes bytes → integer_of bytes ≡ Some z
        → (bytes ≡ shortest_integer z) ⊎ (length (shortest_integer z) < length bytes) }
{}
