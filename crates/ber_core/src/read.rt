//! Reading a header or an element.

ghost use Rattle.std.specs.Prelude.{◌≡◌, ℕ, List, ◌++◌, ◌+◌, ◌≤◌, ◌↔◌, IfOk, IfErr, IsOkAnd, MatchResult, length, take};
ghost use Rattle.ber_core.specs.declared.fault.BerWhy.{BerWhy};
ghost use Rattle.ber_core.specs.Element.{IsElement, IsHeader};
ghost use Rattle.ber_core.specs.Reading.{IsMissing, BeginsNone, HasNoHeader, IsPlacedWithin, form_of, header_size, content_size, header_at, element_at, parts};

use crate::fault::{BerFault, BerWhy};
use crate::number::least_number;

/// The tag and the length of an element.
#[derive(Clone, Copy, Debug, Eq, PartialEq)]
pub struct Header {
    /// The identifier octet (X.690, section 8.1.2).
    pub tag: u8,
    /// How many bytes the tag and the length have.
    pub size: usize,
    /// How many bytes the content has.
    pub content: usize,
}

/// An element.
#[derive(Clone, Copy, Debug)]
pub struct Tlv<'a> {
    /// The identifier octet (X.690, section 8.1.2).
    pub tag: u8,
    /// The content.
    pub body: &'a [u8],
    /// How many bytes the element has in all: tag, length and content.
    pub size: usize,
}

const TOO_LARGE: BerFault = BerFault::Bad {
    place: 0,
    why: BerWhy::TooLarge,
};

/// Refuses what no element begins with, by the tag and the first byte of the length.
fn check_form(seen: &[u8]) -> Result<(), BerFault>
    ensures { result ≡ form_of seen.now }
{
    let (place, why) = match seen {
        [tag, ..] if *tag % 32 == 31 => (0, BerWhy::LongTag),
        [_, 0x80, ..] => (1, BerWhy::Indefinite),
        [_, 0x89..=0xff, ..] => (1, BerWhy::LengthForm),
        _ => return Ok(()),
    };
    Err(BerFault::Bad { place, why })
}

fn header_size(seen: &[u8]) -> usize
    requires { form_of seen.now ≡ Ok tt }
    ensures value { result ≡ header_size seen.now }
    ensures two_to_ten { (2 ≤ result) × (result ≤ 10) }
{
    match seen {
        [_, first @ 0x80..=0xff, ..] => 2 + usize::from(*first - 0x80),
        _ => 2,
    }
}

fn content_size(seen: &[u8]) -> u64
    requires { form_of seen.now ≡ Ok tt }
    ensures { result ≡ content_size seen.now }
{
    match seen {
        [_, first, digits @ ..] => {
            if *first < 0x80 {
                u64::from(*first)
            } else {
                least_number(usize::from(*first - 0x80), digits)
            }
        }
        _ => 0,
    }
}

#[tactic(auto, unfolding(crate::specs::Reading::header_at, crate::specs::Reading::header_within))]
fn find_header(input: &[u8], limit: usize) -> Result<Header, BerFault>
    ensures exact { result ≡ header_at limit input.now }
    ensures within { IfOk result (λ h.
        (2 ≤ h.size) × (h.size ≤ length input.now) × (h.size + h.content ≤ limit)) }
    ensures placed { IfErr result (λ e. IsPlacedWithin limit e) }
{
    if limit < 2 {
        return Err(TOO_LARGE);
    }
    check_form(input)?;
    let size = header_size(input);
    let content = content_size(input);
    if size > limit || content > (limit - size) as u64 {
        return Err(TOO_LARGE);
    }
    let content = content as usize;
    if input.len() < size {
        return Err(BerFault::More {
            need: size + content - input.len(),
        });
    }
    Ok(Header {
        tag: input[0],
        size,
        content,
    })
}

/// The tag and the length at the front of the input, where the element has at most `limit` bytes in
/// all. Its content need not be there.
///
/// Errors are those of `read_tlv`; `need` counts the content too. In constant time.
pub fn read_header(input: &[u8], limit: usize) -> Result<Header, BerFault>
    // What is read is a header, at the front of the input.
    ensures found { IfOk result (λ h. IsHeader (take h.size input.now) h.tag h.content) }
    ensures within { IfOk result (λ h.
        (2 ≤ h.size) × (h.size ≤ length input.now) × (h.size + h.content ≤ limit)) }

    // The header of an element within the limit is read, whatever follows it.
    ensures only { (front rest : List ℕ) (tag content : ℕ) → IsHeader front tag content
        → length front + content ≤ limit → input.now ≡ front ++ rest
        → result ≡ Ok (record { tag = tag; size = length front; content = content }) }

    // More comes exactly where the header isn't there and so many bytes of the element are missing.
    // Bad: no element within the limit begins so.
    ensures more { (need : ℕ) → (result ≡ Err (BerFault.More need)) ↔
        (IsMissing limit input.now need × HasNoHeader input.now) }
    ensures bad { (place : ℕ) (why : BerWhy) → result ≡ Err (BerFault.Bad place why)
        → BeginsNone limit input.now }
    ensures placed { IfErr result (λ e. IsPlacedWithin limit e) }

    // Which of these it is, with the place and the reason.
    ensures exact { result ≡ header_at limit input.now }
{
    find_header(input, limit)
}

#[tactic(auto, unfolding(crate::specs::Reading::element_at))]
fn find_element(input: &[u8], limit: usize) -> Result<Tlv<'_>, BerFault>
    ensures exact { MatchResult result (λ t. element_at limit input.now ≡ Ok (parts t))
        (λ e. element_at limit input.now ≡ Err e) }
    ensures placed { IfErr result (λ e. IsPlacedWithin limit e) }
{
    let header = find_header(input, limit)?;
    let size = header.size + header.content;
    if input.len() < size {
        return Err(BerFault::More {
            need: size - input.len(),
        });
    }
    Ok(Tlv {
        tag: header.tag,
        body: &input[header.size..size],
        size,
    })
}

/// The element at the front of the input, where it has at most `limit` bytes in all.
///
/// A length is read in the short form and in the long form with one to eight digits, also where
/// fewer bytes could say it (X.690, sections 8.1.3.4 and 8.1.3.5). The indefinite form is refused
/// (RFC 4511, section 5.1).
///
/// A fault is told as soon as it is certain: a length of which only the first digits are there is
/// too large where zeros for the others would make it so, and with a limit below two nothing is
/// awaited. The elements inside another are read one after the other, each with what is left of the
/// outer one as its limit. Looks at the tag and the length alone, in constant time.
pub fn read_tlv(input: &[u8], limit: usize) -> Result<Tlv<'_>, BerFault>
    // What is read is an element, at the front of the input.
    ensures found { IfOk result (λ t. IsElement (take t.size input.now) t.tag t.body.now) }
    ensures within { IfOk result (λ t.
        (length t.body.now + 2 ≤ t.size) × (t.size ≤ length input.now) × (t.size ≤ limit)) }

    // An element within the limit is read, whatever follows it.
    ensures only { (whole rest body : List ℕ) (tag : ℕ) → IsElement whole tag body
        → length whole ≤ limit → input.now ≡ whole ++ rest
        → IsOkAnd result (λ t. parts t ≡ record { tag = tag; body = body; size = length whole }) }

    // More comes exactly where so many bytes of the element are missing.
    // Bad: no element within the limit begins so.
    ensures more { (need : ℕ) → (result ≡ Err (BerFault.More need)) ↔
        IsMissing limit input.now need }
    ensures bad { (place : ℕ) (why : BerWhy) → result ≡ Err (BerFault.Bad place why)
        → BeginsNone limit input.now }
    ensures placed { IfErr result (λ e. IsPlacedWithin limit e) }

    // Which of these it is, with the place and the reason.
    ensures exact { MatchResult result (λ t. element_at limit input.now ≡ Ok (parts t))
        (λ e. element_at limit input.now ≡ Err e) }
{
    find_element(input, limit)
}
